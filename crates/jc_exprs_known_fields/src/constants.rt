//! The values of all fields that are constant variables (JLS 4.12.4, 15.28).
ghost use Rattle.std.specs.Prelude.{◌≡◌, [], IfOk, IsTrue, OnOk, length, slice_set};
ghost use Rattle.jc_exprs_parts_spec.specs.Constants.{constants_of};
ghost use Rattle.jc_exprs_known_fields.specs.Programs.{IsProgram, heads_in, knowledge_in};
ghost use Rattle.jc_exprs_known_fields.specs.Rounds.{Below, Raised};

use crate::ordering::in_order;
use crate::program::Program;
use crate::valuing::{field_value, field_values};
use jc_rules::{Items, WantOfMemory};
use jc_types::Constant;
use std::alloc::Global;

// ---- in rounds

#[tactic(auto, using(crate::proofs::Settled::rounds))]
fn by_rounds(alloc: Global, program: &Program) -> Result<Items<Option<Constant>>, WantOfMemory>
    requires { IsProgram program.now }
    ensures { IfOk result (λ cs. cs ≡ constants_of program.now.table.now (heads_in program.now) (knowledge_in program.now)) }
{
    let mut values = Items::new(alloc);
    for _round in 0..program.table.fields.len() {
        values = field_values(alloc, program, values.slice())?;
    }
    Ok(values)
}

// ---- in an order

fn none_known(alloc: Global, count: usize) -> Result<Vec<Option<Constant>>, WantOfMemory>
    ensures count { IfOk result (λ cs. length cs.items ≡ count) }
    ensures none { IfOk result (λ cs. Below cs.items []) }
{
    let mut values = Vec::new(alloc);
    for _field in 0..count {
        values.push(None)?;
    }
    Ok(values)
}

fn put(values: &mut Vec<Option<Constant>>, at: usize, value: Option<Constant>)
    ensures { values.new.items ≡ slice_set values.old.items at value }
{
    if at < values.len() {
        values[at] = value;
    }
}

// One field more is known.
fn know(
    alloc: Global,
    program: &Program,
    values: &mut Vec<Option<Constant>>,
    number: u64,
) -> Result<(), WantOfMemory>
    requires { IsProgram program.now }
    ensures count { OnOk result (length values.new.items ≡ length values.old.items) }
    ensures raised { OnOk result (Raised program.now.table.now (heads_in program.now) (knowledge_in program.now) values.old.items values.new.items) }
{
    let Some(field) = program.table.fields.get(number as usize) else {
        return Ok(());
    };
    let value = field_value(alloc, program, values.as_slice(), field)?;
    put(values, number as usize, value);
    Ok(())
}

// .. where the order has one at this step.
fn know_next(
    alloc: Global,
    program: &Program,
    values: &mut Vec<Option<Constant>>,
    number: Option<&u64>,
) -> Result<(), WantOfMemory>
    requires { IsProgram program.now }
    ensures count { OnOk result (length values.new.items ≡ length values.old.items) }
    ensures raised { OnOk result (Raised program.now.table.now (heads_in program.now) (knowledge_in program.now) values.old.items values.new.items) }
{
    match number {
        None => Ok(()),
        Some(number) => know(alloc, program, values, *number),
    }
}

fn by_order(
    alloc: Global,
    program: &Program,
    order: &[u64],
) -> Result<Vec<Option<Constant>>, WantOfMemory>
    requires { IsProgram program.now }
    ensures count { IfOk result (λ cs. length cs.items ≡ length program.now.table.now.fields) }
    ensures below { IfOk result (λ cs. Below cs.items (constants_of program.now.table.now (heads_in program.now) (knowledge_in program.now))) }
{
    let count = program.table.fields.len();
    let mut values = none_known(alloc, count)?;
    for step in 0..count {
        know_next(alloc, program, &mut values, order.get(step))?;
    }
    Ok(values)
}

// ---- whether nothing more is known

fn same_constant(left: &Constant, right: &Constant) -> bool
    ensures { IsTrue result → left.now ≡ right.now }
{
    match (left, right) {
        (Constant::Whole { value: n, of: p }, Constant::Whole { value: m, of: q }) => {
            n == m && p == q
        }
        (Constant::Text(xs), Constant::Text(ys)) => xs.slice() == ys.slice(),
        _ => false,
    }
}

fn same_value(left: &Option<Constant>, right: &Option<Constant>) -> bool
    ensures { IsTrue result → left.now ≡ right.now }
{
    match (left, right) {
        (None, None) => true,
        (Some(left), Some(right)) => same_constant(left, right),
        _ => false,
    }
}

fn same_values(left: &[Option<Constant>], right: &[Option<Constant>]) -> bool
    ensures { IsTrue result → left.now ≡ right.now }
{
    if left.len() != right.len() {
        return false;
    }
    for at in 0..left.len() {
        if !same_value(&left[at], &right[at]) {
            return false;
        }
    }
    true
}

/// For each field of a table its value, where it is a constant variable. Fields whose values depend on themselves are none.
pub fn constants_of(
    alloc: Global,
    program: &Program,
) -> Result<Items<Option<Constant>>, WantOfMemory>
    requires { IsProgram program.now }
    ensures { IfOk result (λ cs. cs ≡ constants_of program.now.table.now (heads_in program.now) (knowledge_in program.now)) }
{
    let order = in_order(alloc, program)?;
    let values = by_order(alloc, program, order.as_slice())?;
    let again = field_values(alloc, program, values.as_slice())?;
    if same_values(values.as_slice(), again.slice()) {
        return Ok(Items::of(values));
    }
    by_rounds(alloc, program)
}
