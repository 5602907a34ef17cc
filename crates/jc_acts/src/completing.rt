//! What jumps do to completions, and the labels of `switch` (JLS 14.1, 14.11).
ghost use Rattle.jc_acts.specs.Cases.{default_in, is_default, is_key, labelled};
ghost use Rattle.std.specs.Prelude.{if◌then◌else◌, IfOk, IsTrue, [], int_lt, length, pos, ℕ, ◌<◌, ◌==◌, ◌^◌, ◌≡◌};
ghost use Rattle.jc_typed.specs.declared.program.TypedProgram.{TypedProgram};
ghost use Rattle.jc_typed.specs.Parts.{type_of, types_of};
ghost use Rattle.jc_meaning.specs.Expressions as e;
ghost use Rattle.jc_values.specs.Idle.{idle};
ghost use Rattle.jc_typed.specs.Trees.{Stmt};
ghost use Rattle.jc_running.specs.declared.value.Completion.{Completion};
ghost use Rattle.jc_running.specs.Outcomes.{Val, broken, give, instead, stop};
ghost use Rattle.jc_meaning.specs.Statements as s;
ghost use Rattle.jc_running.specs.declared.value.Turn.TheVariants.{Again};
ghost use Rattle.jc_running.specs.declared.value.Completion.TheVariants.{Broke, Normal};
ghost use Rattle.jc_meaning.specs.Kept.{TypedRun, TypedState};
ghost use Rattle.jc_types.specs.Erasing.{erasure};

use jc_layout::is_of;
use jc_places::type_list;
use jc_rules::WantOfMemory;
use jc_running::{Completion, Turn, Value};
use jc_typed::{Case, Nodes};
use jc_types::{Erased, Table, Ty};
use jc_values::{Running, closed_erasure, set_local};
use std::alloc::Global;

// The statement that a jump goes to ends normally (JLS 14.15).
pub fn broken(own: u32, c: Completion) -> Completion
    ensures { result ≡ broken own c }
{
    match c {
        Completion::Broke(t) => {
            if t == own {
                Completion::Normal
            } else {
                Completion::Broke(t)
            }
        }
        Completion::Normal => Completion::Normal,
        Completion::Continued(t) => Completion::Continued(t),
        Completion::Returned(v) => Completion::Returned(v),
    }
}

pub fn set_first(alloc: Global, run: &mut Running, n: u32, values: &[Value])
    ensures { (program : TypedProgram) (inner : e.Inner) (runs : Stmt → TypedRun Completion) (k : ℕ) → s.set_first program inner runs k n values.now run.old.units run.old.state ≡ Val tt run.new.units run.new.state }
{
    match values {
        [] => {}
        [v, ..] => set_local(alloc, run, n as u64, *v),
    }
}

fn is_key(n: i32, key: Option<i32>) -> bool
    ensures { result ≡ is_key n key }
{
    match key {
        Some(k) => n == k,
        None => false,
    }
}

fn is_default(key: Option<i32>) -> bool
    ensures { result ≡ is_default key }
{
    match key {
        Some(_) => false,
        None => true,
    }
}

// How many statements stand before the label of a number.
pub fn labelled(cases: &[Case], n: i32) -> Option<u32>
    ensures { result ≡ labelled n cases.now }
{
    let mut rest = cases;
    while let [first, more @ ..] = rest {
        if is_key(n, first.key) {
            return Some(first.skips);
        }
        rest = more;
    }
    None
}

pub fn default_in(cases: &[Case]) -> Option<u32>
    ensures { result ≡ default_in cases.now }
{
    let mut rest = cases;
    while let [first, more @ ..] = rest {
        if is_default(first.key) {
            return Some(first.skips);
        }
        rest = more;
    }
    None
}

pub fn or_else(first: Option<u32>, second: Option<u32>) -> Option<u32>
    ensures { (program : TypedProgram) (inner : e.Inner) (runs : Stmt → TypedRun Completion) (k : ℕ) → result ≡ s.or_else program inner runs k first second }
{
    match first {
        Some(n) => Some(n),
        None => second,
    }
}

pub fn value_or_null(values: &[Value]) -> Value
    ensures { (program : TypedProgram) (inner : e.Inner) (runs : Stmt → TypedRun Completion) (k : ℕ) → result ≡ s.value_or_null program inner runs k values.now }
{
    match values {
        [] => Value::Null,
        [v, ..] => *v,
    }
}

pub fn ended(own: u32, target: u32) -> Completion
    ensures { result ≡ (if target == own then Normal else Broke target) }
{
    if target == own {
        Completion::Normal
    } else {
        Completion::Broke(target)
    }
}

// What follows the body in a turn with a number.
pub fn numbered(own: u32, c: Completion, next: u64) -> Turn<u64>
    ensures { (program : TypedProgram) (inner : e.Inner) (runs : Stmt → TypedRun Completion) (k : ℕ) (o : TypedState) (u : ℕ) → s.after_body program inner runs k own c (give (Again next)) u o ≡ Val result u o }
{
    match c {
        Completion::Normal => Turn::Again(next),
        Completion::Broke(t) => Turn::Last(ended(own, t)),
        Completion::Continued(t) => {
            if t == own {
                Turn::Again(next)
            } else {
                Turn::Last(Completion::Continued(t))
            }
        }
        Completion::Returned(v) => Turn::Last(Completion::Returned(v)),
    }
}

// Whether a place comes before a length.
pub fn is_before(at: u64, length: i32) -> bool
    ensures before { result ≡ int_lt (pos at) length }
    ensures small { IsTrue result → at < 2 ^ 31 }
{
    if length <= 0 {
        return false;
    }
    at < length as u64
}

// Whether an exception is of one of the alternatives of a clause.
pub fn is_any_of(
    alloc: Global,
    table: &Table,
    nodes: &Nodes,
    e: Erased,
    types: u32,
) -> Result<bool, WantOfMemory>
    ensures { IfOk result (λ r. (program : TypedProgram) → program.table ≡ table.now → r ≡ s.is_any_of program idle (λ x. stop) 0 e (types_of nodes.now types)) }
{
    let places = type_list(alloc, nodes, types)?;
    let mut rest = places.slice();
    while let [first, more @ ..] = rest {
        if is_of(table, e, erasure_at(alloc, table, nodes, *first)) {
            return Ok(true);
        }
        rest = more;
    }
    Ok(false)
}

#[tactic(auto, using(jc_places::proofs::Beyond::nothing))]
fn erasure_at(alloc: Global, table: &Table, nodes: &Nodes, at: u32) -> Erased
    ensures { result ≡ erasure table.now [] (type_of nodes.now at) }
{
    if (at as usize) < nodes.len() {
        closed_erasure(alloc, table, nodes.ty(at))
    } else {
        closed_erasure(alloc, table, &Ty::NullTy)
    }
}

// What a finally block completes with comes in place of what was before, unless it completes normally (JLS 14.20.2).
pub fn instead(last: Completion, before: Completion) -> Completion
    ensures { (u : ℕ) (s : TypedState) → instead last (give before) u s ≡ Val result u s }
{
    match last {
        Completion::Normal => before,
        Completion::Broke(t) => Completion::Broke(t),
        Completion::Continued(t) => Completion::Continued(t),
        Completion::Returned(v) => Completion::Returned(v),
    }
}
