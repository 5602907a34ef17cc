//! What was given, where a point waits for something of one sort. No computation of a checked program gives something of another.
ghost use Rattle.std.specs.Prelude.{◌≡◌, List, ℕ};
ghost use Rattle.jc_evaluate.specs.Giving.{taken};
ghost use Rattle.jc_meaning.specs.declared.target.Target.{Target};
ghost use Rattle.jc_pending.specs.Frames.{Ends, completion_waits, nothing_waits, numbered_waits, target_waits, turn_waits, value_waits, values_wait};
ghost use Rattle.jc_pending.specs.Leads.{given_on};
ghost use Rattle.jc_running.specs.declared.value.Completion.{Completion};
ghost use Rattle.jc_running.specs.declared.value.Turn.{Turn};
ghost use Rattle.jc_running.specs.declared.value.Value.{Value};
ghost use Rattle.jc_values.specs.declared.halt.Running.{Running};

use jc_meaning::Target;
use jc_pending::Given;
use jc_rules::Items;
use jc_running::{Completion, Turn, Value};

/// Where a point waits for a value.
pub fn value_in(given: Given) -> Option<Value>
    ensures { (f : Ends Value) (r : Running) → given_on (value_waits f) given r ≡ f (taken result r) }
{
    match given {
        Given::Value(given) => Some(given),
        Given::Values(_)
        | Given::Nothing
        | Given::Target(_)
        | Given::Completion(_)
        | Given::Turn(_)
        | Given::Numbered(_) => None,
    }
}

/// Where a point waits for the values of operands.
pub fn values_in(given: Given) -> Option<Items<Value>>
    ensures { (f : Ends (List Value)) (r : Running) → given_on (values_wait f) given r ≡ f (taken result r) }
{
    match given {
        Given::Values(given) => Some(given),
        Given::Value(_)
        | Given::Nothing
        | Given::Target(_)
        | Given::Completion(_)
        | Given::Turn(_)
        | Given::Numbered(_) => None,
    }
}

/// Where a point waits for that nothing is given.
pub fn nothing_in(given: Given) -> Option<()>
    ensures { (f : Ends (Unit {0})) (r : Running) → given_on (nothing_waits f) given r ≡ f (taken result r) }
{
    match given {
        Given::Nothing => Some(()),
        Given::Value(_)
        | Given::Values(_)
        | Given::Target(_)
        | Given::Completion(_)
        | Given::Turn(_)
        | Given::Numbered(_) => None,
    }
}

/// Where a point waits for a variable.
pub fn target_in(given: Given) -> Option<Target>
    ensures { (f : Ends Target) (r : Running) → given_on (target_waits f) given r ≡ f (taken result r) }
{
    match given {
        Given::Target(given) => Some(given),
        Given::Value(_)
        | Given::Values(_)
        | Given::Nothing
        | Given::Completion(_)
        | Given::Turn(_)
        | Given::Numbered(_) => None,
    }
}

/// Where a point waits for a completion.
pub fn completion_in(given: Given) -> Option<Completion>
    ensures { (f : Ends Completion) (r : Running) → given_on (completion_waits f) given r ≡ f (taken result r) }
{
    match given {
        Given::Completion(given) => Some(given),
        Given::Value(_)
        | Given::Values(_)
        | Given::Nothing
        | Given::Target(_)
        | Given::Turn(_)
        | Given::Numbered(_) => None,
    }
}

/// Where a point waits for how a turn ended.
pub fn turn_in(given: Given) -> Option<Turn<()>>
    ensures { (f : Ends (Turn (Unit {0}))) (r : Running) → given_on (turn_waits f) given r ≡ f (taken result r) }
{
    match given {
        Given::Turn(given) => Some(given),
        Given::Value(_)
        | Given::Values(_)
        | Given::Nothing
        | Given::Target(_)
        | Given::Completion(_)
        | Given::Numbered(_) => None,
    }
}

/// Where a point waits for how a turn over an array ended.
pub fn numbered_in(given: Given) -> Option<Turn<u64>>
    ensures { (f : Ends (Turn ℕ)) (r : Running) → given_on (numbered_waits f) given r ≡ f (taken result r) }
{
    match given {
        Given::Numbered(given) => Some(given),
        Given::Value(_)
        | Given::Values(_)
        | Given::Nothing
        | Given::Target(_)
        | Given::Completion(_)
        | Given::Turn(_) => None,
    }
}
