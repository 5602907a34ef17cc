//! How a run begins: fields, classes and arguments before the first statement (JLS 12.4.1).
ghost use Rattle.std.specs.Prelude.{IfOk, length, replicate, ◌≡◌};
ghost use Rattle.jc_values.specs.Doing.{Does, OutOf};
ghost use Rattle.jc_running.specs.declared.value.Readiness.TheVariants.{Untouched};
ghost use Rattle.jc_meaning.specs.Meaning.{argument_array, argument_strings, field_values, first_state, outcome, seen};

use jc_heaps::{Input, Object, State};
use jc_layout::default_of;
use jc_meaning::Frame;
use jc_rules::{Items, WantOfMemory};
use jc_running::{Ending, Readiness, Seen, Shown, Value};
use jc_typed::TypedProgram;
use jc_types::{FieldId, MethodId, Table, Ty, array_over};
use jc_values::{Halt, Running, class_name, make, make_string};
use std::alloc::Global;

fn untouched(alloc: Global, count: usize) -> Result<Items<Readiness>, WantOfMemory>
    ensures { IfOk result (λ r. r ≡ replicate count Untouched) }
{
    let mut out = Items::new(alloc);
    for i in 0..count {
        out.push(Readiness::Untouched)?;
    }
    Ok(out)
}

fn field_values(alloc: Global, table: &Table) -> Result<Items<Value>, WantOfMemory>
    ensures { IfOk result (λ r. r ≡ field_values table.now 0 (length table.now.fields)) }
{
    let mut out = Items::new(alloc);
    let mut at: u64 = 0;
    let mut left = table.fields.len();
    while left > 0 {
        out.push(default_of(table, FieldId(at)))?;
        at += 1;
        left -= 1;
    }
    Ok(out)
}

// The state as a program begins, with all units.
pub fn begun(
    alloc: Global,
    program: &TypedProgram,
    m: MethodId,
    input: Items<u8>,
    units: u64,
) -> Result<Running, WantOfMemory>
    ensures state { IfOk result (λ r. r.state ≡ first_state program.now m input) }
    ensures units { IfOk result (λ r. r.units ≡ units) }
{
    let classes = untouched(alloc, program.table.classes.len())?;
    let statics = field_values(alloc, &program.table)?;
    Ok(Running {
        units,
        state: State {
            locals: Items::new(alloc),
            frame: Frame {
                method: m,
                variables: Items::new(alloc),
                captured: Items::new(alloc),
            },
            heap: Items::new(alloc),
            classes,
            statics,
            strings: Items::new(alloc),
            input: Input::of(input),
            shown: Shown {
                output: Items::new(alloc),
                taken: 0,
                failed: Items::new(alloc),
            },
            record_of: Items::new(alloc),
        },
    })
}

#[tactic(auto, using(crate::proofs::Lists::moved, crate::proofs::Lists::same_values))]
pub fn argument_strings(
    alloc: Global,
    program: &TypedProgram,
    texts: &[Items<u16>],
    run: &mut Running,
) -> Result<Items<Value>, Halt>
    ensures { Does (argument_strings program.now texts.now run.old.units run.old.state) result run.new }
{
    let mut out = Items::new(alloc);
    let mut rest = texts;
    while let [first, more @ ..] = rest {
        let v = make_string(alloc, program, run, first.slice())?;
        out.push(v)?;
        rest = more;
    }
    Ok(out)
}

pub fn argument_array(
    alloc: Global,
    program: &TypedProgram,
    values: Items<Value>,
    run: &mut Running,
) -> Result<u64, Halt>
    ensures { Does (argument_array program.now values run.old.units run.old.state) result run.new }
{
    let of = Ty::Class {
        id: program.known.string,
        args: Items::new(alloc),
    };
    let kept = array_over(alloc, of, 0)?;
    make(
        run,
        Object {
            kept,
            parts: values,
        },
    )
}

// What a run shows that ended so; nothing where the program is none that was checked.
pub fn shown(
    alloc: Global,
    program: &TypedProgram,
    run: Running,
    outcome: Result<Value, Halt>,
) -> Result<Option<Seen>, WantOfMemory>
    ensures { IfOk result (λ r. OutOf outcome run (λ o. r ≡ seen program.now o)) }
{
    let ending = match outcome {
        Ok(_) => Ending::Ended,
        Err(Halt::Thrown(a)) => Ending::Threw(class_name(alloc, program, &run, a)?),
        Err(Halt::Exited(code)) => Ending::Exited(code),
        Err(Halt::Going) => Ending::Going,
        Err(Halt::Wrong) => return Ok(None),
        Err(Halt::WantOfMemory) => return Err(WantOfMemory),
    };
    let shown = run.state.shown;
    Ok(Some(Seen {
        output: shown.output,
        taken: shown.taken,
        ending,
    }))
}
