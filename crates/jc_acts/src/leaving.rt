//! What a computation leaves behind: the run as it was round it.
ghost use Rattle.jc_values.specs.Doing.{Does};
ghost use Rattle.jc_meaning.specs.Kept.{TypedState};
ghost use Rattle.jc_running.specs.Outcomes.{Out, leave};
ghost use Rattle.jc_running.specs.declared.value.Value.{Value};
ghost use Rattle.jc_meaning.specs.Meaning.{outcome};
ghost use Rattle.jc_running.specs.declared.value.Completion.{Completion};

use jc_running::{Completion, Value};
use jc_values::{Halt, Running};

// A unit is spent where a node with a value is left.
pub fn left_value(run: &mut Running, outcome: Result<Value, Halt>) -> Result<Value, Halt>
    ensures { (o : Out TypedState Value) → Does o outcome run.old → Does (leave o) result run.new }
{
    match outcome {
        Ok(v) => {
            if run.units == 0 {
                return Err(Halt::Going);
            }
            run.units -= 1;
            Ok(v)
        }
        Err(Halt::Thrown(a)) => {
            if run.units == 0 {
                return Err(Halt::Going);
            }
            run.units -= 1;
            Err(Halt::Thrown(a))
        }
        Err(h) => Err(h),
    }
}

// .. where a statement or a body is left
pub fn left(run: &mut Running, outcome: Result<Completion, Halt>) -> Result<Completion, Halt>
    ensures { (o : Out TypedState Completion) → Does o outcome run.old → Does (leave o) result run.new }
{
    match outcome {
        Ok(c) => {
            if run.units == 0 {
                return Err(Halt::Going);
            }
            run.units -= 1;
            Ok(c)
        }
        Err(Halt::Thrown(a)) => {
            if run.units == 0 {
                return Err(Halt::Going);
            }
            run.units -= 1;
            Err(Halt::Thrown(a))
        }
        Err(h) => Err(h),
    }
}

// .. and where the initialisation of a class is left
pub fn left_class(run: &mut Running, outcome: Result<(), Halt>) -> Result<(), Halt>
    ensures { (o : Out TypedState (Unit {0})) → Does o outcome run.old → Does (leave o) result run.new }
{
    match outcome {
        Ok(()) => {
            if run.units == 0 {
                return Err(Halt::Going);
            }
            run.units -= 1;
            Ok(())
        }
        Err(Halt::Thrown(a)) => {
            if run.units == 0 {
                return Err(Halt::Going);
            }
            run.units -= 1;
            Err(Halt::Thrown(a))
        }
        Err(h) => Err(h),
    }
}
