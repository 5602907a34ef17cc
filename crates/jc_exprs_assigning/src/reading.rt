//! What a variable gives that is read and assigned, and what is stored in it.
ghost use Rattle.std.specs.Prelude.{◌≡◌, ◌<◌, ◌++◌, length, Some, IfOk, IsTrue};
ghost use Rattle.jc_rules.specs.Rules.{is_rule};
ghost use Rattle.jc_convert.specs.Converting.{assignment};
ghost use Rattle.std.specs.Option.{option_copied};
ghost use Rattle.jc_typed.specs.Parts.{Grows, steps_of, type_of};
ghost use Rattle.jc_exprs_nodes_spec.specs.Typeds.{constant_of, unconverted, use_guard, type_of as counted_type};
ghost use Rattle.jc_exprs_nodes.specs.Walks.{IsPart, as_breaks, known};
ghost use Rattle.jc_exprs_parts_spec.specs.Assigning.{read_steps};
ghost use Rattle.jc_exprs_operators.specs.Takings.{wanted};
ghost use Rattle.jc_exprs_targets.specs.Targets.{TargetBelow, target_of};

use jc_convert::{Converts, assignment};
use jc_exprs_nodes::{Judging, Led, Part, Walk, push_read_guard, push_use_guard_at, unconverted};
use jc_exprs_operators::{constant_in, push_steps_to};
use jc_exprs_targets::TargetAt;
use jc_rules::{Place, Refusal, WantOfMemory};
use jc_typed::Nodes;
use jc_types::{Constant, Primitive, Table, copy_type};
use std::alloc::Global;

/// The constant that a part is, if it is one.
pub fn constant_value(nodes: &Nodes, part: Part) -> Option<&Constant>
    requires { IsPart nodes.now part }
    ensures { constant_of (known nodes.now part.at) ≡ option_copied result }
{
    match constant_in(nodes, part) {
        Some(known) => Some(nodes.constant(known.value)),
        None => None,
    }
}

/// The steps of a variable's value to a primitive type that an operator takes; its guard alone where the operator takes the value as it is.
#[tactic(auto, using(jc_typed::proofs::Growing::growing))]
pub fn push_read_steps(
    alloc: Global,
    nodes: &mut Nodes,
    judging: &Judging,
    target: TargetAt,
    to: Option<Primitive>,
) -> Result<u32, WantOfMemory>
    requires { TargetBelow (length nodes.old) (Some target) }
    ensures value { IfOk result (λ at. steps_of nodes.new at ≡ read_steps judging.now.table.now judging.now.env.now.bounds (target_of nodes.old target) (wanted (type_of nodes.old target.ty) to)) }
    ensures within { IfOk result (λ at. at < length nodes.new) }
    ensures grows { Grows nodes.old nodes.new }
{
    let ty = copy_type(alloc, nodes.ty(target.ty))?;
    let steps = push_read_guard(alloc, nodes, judging, target.declared, &ty)?;
    let before = Led {
        steps,
        ty: target.ty,
    };
    push_steps_to(alloc, nodes, judging, before, to)
}

/// The guards of what is stored, behind other steps.
#[tactic(auto, using(jc_typed::proofs::Growing::growing))]
pub fn push_store(
    alloc: Global,
    nodes: &mut Nodes,
    judging: &Judging,
    target: TargetAt,
    before: u32,
) -> Result<u32, WantOfMemory>
    requires target { TargetBelow (length nodes.old) (Some target) }
    requires before { before < length nodes.old }
    ensures value { IfOk result (λ at. steps_of nodes.new at ≡ steps_of nodes.old before ++ use_guard judging.now.table.now judging.now.env.now.bounds (type_of nodes.old target.ty) target.declared) }
    ensures within { IfOk result (λ at. at < length nodes.new) }
    ensures grows { Grows nodes.old nodes.new }
{
    push_use_guard_at(alloc, nodes, judging, before, target.ty, target.declared)
}

/// The rule that a conversion breaks where there is none.
pub fn break_of(number: u16, place: Place, converts: &Converts) -> Option<Refusal>
    requires { IsTrue (is_rule number) }
    ensures { unconverted number place converts.now ≡ as_breaks result }
{
    unconverted(number, place, converts)
}

/// The conversion of a value to a variable's type by assignment (JLS 5.2).
pub fn assigned(
    alloc: Global,
    table: &Table,
    walk: &Walk,
    target: TargetAt,
    value: Part,
) -> Result<Converts, WantOfMemory>
    requires target { TargetBelow (length walk.now.nodes) (Some target) }
    requires value { IsPart walk.now.nodes value }
    ensures { IfOk result (λ c. assignment table.now walk.now.env.bounds (counted_type (known walk.now.nodes value.at)) (constant_of (known walk.now.nodes value.at)) (type_of walk.now.nodes target.ty) ≡ c) }
{
    assignment(
        alloc,
        table,
        &walk.env,
        walk.nodes.ty(value.ty),
        constant_value(&walk.nodes, value),
        walk.nodes.ty(target.ty),
    )
}
