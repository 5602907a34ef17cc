//! Conditionals (JLS 15.25).
ghost use Rattle.std.specs.Prelude.{◌≡◌, ◌<◌, None, Some, length, IfOk, OnOk};
ghost use Rattle.jc_typed.specs.Parts.{BelowForm, Grows, form_over, parts};
ghost use Rattle.jc_typed.specs.Trees.{Conditional};
ghost use Rattle.jc_exprs_nodes_spec.specs.Told.{ran};
ghost use Rattle.jc_exprs_nodes_spec.specs.Typeds.{converted, known_of};
ghost use Rattle.jc_exprs_nodes.specs.Walks.{has, known, now};
ghost use Rattle.jc_exprs_parts_spec.specs.Values.{branch, choice_typed, chosen, chosen_type, known_choice, known_three};
ghost use Rattle.jc_exprs_constants.specs.Knowing.{KnownBelow, has_known, known_at};
ghost use Rattle.jc_exprs_values.specs.Chosen.{IsChoice, branches};

use crate::branches::{Branches, chosen_type, push_branch};
use crate::noting::{captured, fixed};
use jc_convert::{Converts, invocation};
use jc_exprs_constants::{
    KnownAt, conditional_constant, known_part, push_names_behind, push_places_behind,
};
use jc_exprs_nodes::{Judging, Part, Walk, converted, refused, unconverted};
use jc_rules::WantOfMemory;
use jc_typed::{ExprForm, Nodes};
use jc_types::{Constant, Primitive, Table, Ty};
use std::alloc::Global;

/// A test and two branches. The captured variables from the number `from` on and below `up_to` are those of the branches.
#[derive(Clone, Copy, Debug)]
pub struct Choice {
    pub test: Part,
    pub first: Part,
    pub second: Part,
    pub from: u64,
    pub up_to: u64,
}

// Three constants.
#[derive(Clone, Copy)]
struct KnownThree {
    test: KnownAt,
    first: KnownAt,
    second: KnownAt,
}

// The constant that three give, by its value.
#[tactic(auto, using(jc_typed::proofs::Growing::growing))]
fn push_three(
    alloc: Global,
    nodes: &mut Nodes,
    three: KnownThree,
    value: Constant,
) -> Result<KnownAt, WantOfMemory>
    requires test { KnownBelow (length nodes.old) (Some three.test) }
    requires first { KnownBelow (length nodes.old) (Some three.first) }
    requires second { KnownBelow (length nodes.old) (Some three.second) }
    ensures value { IfOk result (λ r. known_three (known_at nodes.old three.test) (known_at nodes.old three.first) (known_at nodes.old three.second) (Some value) ≡ Some (known_at nodes.new r)) }
    ensures below { IfOk result (λ r. KnownBelow (length nodes.new) (Some r)) }
    ensures grows { Grows nodes.old nodes.new }
{
    let value = nodes.push_constant(value)?;
    let named = push_names_behind(alloc, nodes, three.test.named, three.first.named)?;
    let named = push_names_behind(alloc, nodes, named, three.second.named)?;
    let casts = push_places_behind(alloc, nodes, three.test.casts, three.first.casts)?;
    let casts = push_places_behind(alloc, nodes, casts, three.second.casts)?;
    Ok(KnownAt {
        value,
        named,
        casts,
    })
}

#[tactic(auto, using(jc_typed::proofs::Growing::growing))]
fn known_three(
    alloc: Global,
    nodes: &mut Nodes,
    three: KnownThree,
) -> Result<Option<KnownAt>, WantOfMemory>
    requires test { KnownBelow (length nodes.old) (Some three.test) }
    requires first { KnownBelow (length nodes.old) (Some three.first) }
    requires second { KnownBelow (length nodes.old) (Some three.second) }
    ensures value { IfOk result (λ r. known_choice (Some (known_at nodes.old three.test)) (Some (known_at nodes.old three.first)) (Some (known_at nodes.old three.second)) ≡ has_known nodes.new r) }
    ensures below { IfOk result (λ r. KnownBelow (length nodes.new) r) }
    ensures grows { Grows nodes.old nodes.new }
{
    let test = nodes.constant(three.test.value);
    let first = nodes.constant(three.first.value);
    let second = nodes.constant(three.second.value);
    match conditional_constant(alloc, test, first, second)? {
        None => Ok(None),
        Some(value) => Ok(Some(push_three(alloc, nodes, three, value)?)),
    }
}

// The constant that a conditional is, if it is one.
#[tactic(auto, using(jc_typed::proofs::Growing::growing, crate::proofs::Knowing::choices))]
fn known_choice(
    alloc: Global,
    nodes: &mut Nodes,
    choice: Choice,
) -> Result<Option<KnownAt>, WantOfMemory>
    requires { IsChoice nodes.old choice }
    ensures value { IfOk result (λ r. known_choice (known_of (known nodes.old choice.test.at)) (known_of (known nodes.old choice.first.at)) (known_of (known nodes.old choice.second.at)) ≡ has_known nodes.new r) }
    ensures below { IfOk result (λ r. KnownBelow (length nodes.new) r) }
    ensures grows { Grows nodes.old nodes.new }
{
    let Some(test) = known_part(nodes, choice.test) else {
        return Ok(None);
    };
    let Some(first) = known_part(nodes, choice.first) else {
        return Ok(None);
    };
    let Some(second) = known_part(nodes, choice.second) else {
        return Ok(None);
    };
    known_three(
        alloc,
        nodes,
        KnownThree {
            test,
            first,
            second,
        },
    )
}

// The form of a conditional of a type that is no constant.
#[tactic(auto, using(jc_typed::proofs::Growing::growing, jc_exprs_nodes::proofs::Staying::staying))]
fn choice_form(
    alloc: Global,
    nodes: &mut Nodes,
    judging: &Judging,
    choice: Choice,
    ty: &Ty,
    converts: &Converts,
) -> Result<ExprForm, WantOfMemory>
    requires { IsChoice nodes.old choice }
    ensures value { IfOk result (λ r. form_over (parts nodes.new) r ≡ Conditional (converted judging.now.table.now judging.now.env.now.bounds (known nodes.old choice.test.at) converts.now) (branch judging.now.table.now judging.now.env.now.bounds (known nodes.old choice.first.at) ty.now) (branch judging.now.table.now judging.now.env.now.bounds (known nodes.old choice.second.at) ty.now) choice.from choice.up_to) }
    ensures below { IfOk result (λ r. BelowForm (length nodes.new) r) }
    ensures grows { Grows nodes.old nodes.new }
{
    let test = converted(alloc, nodes, judging, choice.test, converts)?;
    let then = push_branch(alloc, nodes, judging, choice.first, ty)?;
    let other = push_branch(alloc, nodes, judging, choice.second, ty)?;
    Ok(ExprForm::Conditional {
        test,
        then,
        other,
        from: choice.from,
        up_to: choice.up_to,
    })
}

// A conditional that is no constant.
#[tactic(auto, using(jc_typed::proofs::Growing::growing))]
fn choice_captured(
    alloc: Global,
    table: &Table,
    walk: &mut Walk,
    choice: Choice,
    ty: &Ty,
    converts: &Converts,
) -> Result<u32, WantOfMemory>
    requires { IsChoice walk.old.nodes choice }
    ensures state { OnOk result ((ran (choice_typed table.now walk.old.env.bounds (known walk.old.nodes choice.test.at) (branches walk.old.nodes choice) converts.now ty.now None) (now walk.old)).state ≡ now walk.new) }
    ensures value { IfOk result (λ at. (ran (choice_typed table.now walk.old.env.bounds (known walk.old.nodes choice.test.at) (branches walk.old.nodes choice) converts.now ty.now None) (now walk.old)).has ≡ has walk.new.nodes at) }
    ensures within { IfOk result (λ at. at < length walk.new.nodes) }
    ensures grows { Grows walk.old.nodes walk.new.nodes }
{
    let judging = Judging {
        table,
        env: &walk.env,
    };
    let form = choice_form(alloc, &mut walk.nodes, &judging, choice, ty, converts)?;
    captured(alloc, table, walk, choice.test.start, ty, form)
}

// A conditional of a type: a constant, or an expression.
#[tactic(auto, using(jc_typed::proofs::Growing::growing, crate::proofs::Knowing::stays))]
fn choice_typed(
    alloc: Global,
    table: &Table,
    walk: &mut Walk,
    choice: Choice,
    ty: &Ty,
    converts: &Converts,
) -> Result<u32, WantOfMemory>
    requires { IsChoice walk.old.nodes choice }
    ensures state { OnOk result ((ran (choice_typed table.now walk.old.env.bounds (known walk.old.nodes choice.test.at) (branches walk.old.nodes choice) converts.now ty.now (known_choice (known_of (known walk.old.nodes choice.test.at)) (known_of (known walk.old.nodes choice.first.at)) (known_of (known walk.old.nodes choice.second.at)))) (now walk.old)).state ≡ now walk.new) }
    ensures value { IfOk result (λ at. (ran (choice_typed table.now walk.old.env.bounds (known walk.old.nodes choice.test.at) (branches walk.old.nodes choice) converts.now ty.now (known_choice (known_of (known walk.old.nodes choice.test.at)) (known_of (known walk.old.nodes choice.first.at)) (known_of (known walk.old.nodes choice.second.at)))) (now walk.old)).has ≡ has walk.new.nodes at) }
    ensures within { IfOk result (λ at. at < length walk.new.nodes) }
    ensures grows { Grows walk.old.nodes walk.new.nodes }
{
    match known_choice(alloc, &mut walk.nodes, choice)? {
        Some(known) => fixed(alloc, walk, choice.test.start, ty, known),
        None => choice_captured(alloc, table, walk, choice, ty, converts),
    }
}

// The type of a conditional whose parts stand in a walk.
fn type_of_choice(
    alloc: Global,
    table: &Table,
    walk: &Walk,
    choice: Choice,
) -> Result<Ty, WantOfMemory>
    requires { IsChoice walk.now.nodes choice }
    ensures { IfOk result (λ r. r ≡ chosen_type table.now walk.now.env.bounds (known walk.now.nodes choice.first.at) (known walk.now.nodes choice.second.at)) }
{
    let judging = Judging {
        table,
        env: &walk.env,
    };
    let branches = Branches {
        nodes: &walk.nodes,
        first: choice.first,
        second: choice.second,
    };
    chosen_type(alloc, &judging, &branches)
}

// A conditional whose test is converted.
fn choice_of_type(
    alloc: Global,
    table: &Table,
    walk: &mut Walk,
    choice: Choice,
    converts: &Converts,
) -> Result<u32, WantOfMemory>
    requires { IsChoice walk.old.nodes choice }
    ensures state { OnOk result ((ran (choice_typed table.now walk.old.env.bounds (known walk.old.nodes choice.test.at) (branches walk.old.nodes choice) converts.now (chosen_type table.now walk.old.env.bounds (known walk.old.nodes choice.first.at) (known walk.old.nodes choice.second.at)) (known_choice (known_of (known walk.old.nodes choice.test.at)) (known_of (known walk.old.nodes choice.first.at)) (known_of (known walk.old.nodes choice.second.at)))) (now walk.old)).state ≡ now walk.new) }
    ensures value { IfOk result (λ at. (ran (choice_typed table.now walk.old.env.bounds (known walk.old.nodes choice.test.at) (branches walk.old.nodes choice) converts.now (chosen_type table.now walk.old.env.bounds (known walk.old.nodes choice.first.at) (known walk.old.nodes choice.second.at)) (known_choice (known_of (known walk.old.nodes choice.test.at)) (known_of (known walk.old.nodes choice.first.at)) (known_of (known walk.old.nodes choice.second.at)))) (now walk.old)).has ≡ has walk.new.nodes at) }
    ensures within { IfOk result (λ at. at < length walk.new.nodes) }
    ensures grows { Grows walk.old.nodes walk.new.nodes }
{
    let ty = type_of_choice(alloc, table, walk, choice)?;
    choice_typed(alloc, table, walk, choice, &ty, converts)
}

/// A conditional: 607 at a test that isn't boolean, and 606 where that can't be told.
#[tactic(auto, using(crate::proofs::Ruling::choosing))]
pub fn chosen(
    alloc: Global,
    table: &Table,
    walk: &mut Walk,
    choice: Choice,
) -> Result<u32, WantOfMemory>
    requires { IsChoice walk.old.nodes choice }
    ensures state { OnOk result ((ran (chosen table.now (known walk.old.nodes choice.test.at) (branches walk.old.nodes choice)) (now walk.old)).state ≡ now walk.new) }
    ensures value { IfOk result (λ at. (ran (chosen table.now (known walk.old.nodes choice.test.at) (branches walk.old.nodes choice)) (now walk.old)).has ≡ has walk.new.nodes at) }
    ensures within { IfOk result (λ at. at < length walk.new.nodes) }
    ensures grows { Grows walk.old.nodes walk.new.nodes }
{
    let boolean = Ty::Prim(Primitive::Boolean);
    let from = walk.nodes.ty(choice.test.ty);
    let converts = invocation(alloc, table, &walk.env, from, &boolean)?;
    match unconverted(607, choice.test.start, &converts) {
        Some(found) => refused(walk, found),
        None => choice_of_type(alloc, table, walk, choice, &converts),
    }
}
