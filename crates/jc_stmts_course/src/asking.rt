//! Items that ask expressions, once the walk has gone through them (JLS 14).
ghost use Rattle.std.specs.Prelude.{◌≡◌, ◌<◌, length, Some, IfOk, OnOk};
ghost use Rattle.std.specs.Option.{option_copied};
ghost use Rattle.jc_typed.specs.Parts.{Grows};
ghost use Rattle.jc_exprs_nodes_spec.specs.Gates.{gated};
ghost use Rattle.jc_exprs_nodes_spec.specs.Typeds.{value_in};
ghost use Rattle.jc_exprs_nodes.specs.Walks.{has, now};
ghost use Rattle.jc_stmts_spec.specs.Courses.{AKey, AnOperand, Key, known_in_operand, label_of, selector_type, top_of};
ghost use Rattle.jc_stmts_plan.specs.Seen.{want_seen};
ghost use Rattle.jc_stmts_wants.specs.Wanting.{KeyBelow, OperandBelow, SomeElementsBelow, has_elements, has_key, has_operand, scope_of, wanted_by};
ghost use Rattle.jc_stmts_course.specs.Nows.{IsCourse, constant_from_value, kept_label, stage, told};
ghost use Rattle.jc_stmts_course.specs.Steps.{asked, behind, filled, gone_over, keeping, labelled, with_value};

use crate::answering::answer;
use crate::course::Course;
use crate::scoping::pop_scope;
use jc_exprs_constants::constant_as;
use jc_rules::{Place, WantOfMemory};
use jc_stmts_answers::{AnswerAt, ElementsAt};
use jc_stmts_plan::Want;
use jc_stmts_wants::{
    KeyAt, Labelling, Scope, Wanting, label as label_at, operand_constant, operand_type, wanted,
};
use jc_typed::Nodes;
use jc_types::{Constant, Table, Ty, copy_type};
use std::alloc::Global;

// An operand, where there is one.
#[tactic(auto, using(crate::proofs::Lasting::answering))]
fn answer_operand(course: &mut Course, operand: Option<u32>) -> Result<(), WantOfMemory>
    requires course { IsCourse course.old }
    requires operand { OperandBelow (length course.old.walk.nodes) operand }
    ensures stage { OnOk result (behind (λ x. AnOperand x) (told (now course.old.walk) (has_operand course.old.walk.nodes operand)) (stage course.old) ≡ stage course.new) }
    ensures course { OnOk result (IsCourse course.new) }
    ensures kept { OnOk result ((course.new.walk ≡ course.old.walk) × (course.new.scopes ≡ course.old.scopes) × (course.new.locals ≡ course.old.locals)) }
{
    match operand {
        None => Ok(()),
        Some(at) => answer(course, AnswerAt::AnOperand(at)),
    }
}

// The value of the local that was declared last, from its initialiser (JLS 4.12.4).
fn constant_from(
    alloc: Global,
    table: &Table,
    ty: &Ty,
    value: Option<&Constant>,
) -> Result<Option<Constant>, WantOfMemory>
    ensures { IfOk result (λ r. r ≡ constant_from_value table.now ty.now (option_copied value.entry)) }
{
    match value {
        None => Ok(None),
        Some(constant) => constant_as(alloc, table, ty, constant),
    }
}

// The value of an operand, if it is a constant expression.
fn value_of(nodes: &Nodes, operand: Option<u32>) -> Option<&Constant>
    requires { OperandBelow (length nodes.now) operand }
    ensures { option_copied result ≡ value_in (known_in_operand (has_operand nodes.now operand)) }
{
    match operand {
        None => None,
        Some(at) => operand_constant(nodes, at),
    }
}

// A final local that is initialised with a constant is a constant variable.
#[tactic(auto, using(crate::proofs::Filling::filling))]
fn set_constant(
    alloc: Global,
    table: &Table,
    course: &mut Course,
    operand: Option<u32>,
) -> Result<(), WantOfMemory>
    requires course { IsCourse course.old }
    requires operand { OperandBelow (length course.old.walk.nodes) operand }
    ensures stage { OnOk result (with_value table.now (has_operand course.old.walk.nodes operand) (stage course.old) ≡ stage course.new) }
    ensures course { OnOk result (IsCourse course.new) }
    ensures walk { OnOk result (course.new.walk ≡ course.old.walk) }
{
    let ty = course.locals.last_type(alloc)?;
    let value = value_of(&course.walk.nodes, operand);
    let constant = constant_from(alloc, table, &ty, value)?;
    course.locals.set_constant(constant);
    Ok(())
}

/// The initialiser of the local that was declared last, by the operand that the walk has of it.
pub fn fill(
    alloc: Global,
    table: &Table,
    course: &mut Course,
    operand: Option<u32>,
) -> Result<(), WantOfMemory>
    requires course { IsCourse course.old }
    requires operand { OperandBelow (length course.old.walk.nodes) operand }
    ensures stage { OnOk result (filled table.now (told (now course.old.walk) (has_operand course.old.walk.nodes operand)) (stage course.old) ≡ stage course.new) }
    ensures course { OnOk result (IsCourse course.new) }
    ensures walk { OnOk result (course.new.walk ≡ course.old.walk) }
{
    answer_operand(course, operand)?;
    set_constant(alloc, table, course, operand)
}

// The type of a selector, if there is one.
fn type_of_operand(
    alloc: Global,
    nodes: &Nodes,
    operand: Option<u32>,
) -> Result<Option<Ty>, WantOfMemory>
    requires { OperandBelow (length nodes.now) operand }
    ensures { IfOk result (λ r. r ≡ selector_type (has_operand nodes.now operand)) }
{
    match operand {
        None => Ok(None),
        Some(at) => match operand_type(nodes, at) {
            None => Ok(None),
            Some(ty) => Ok(Some(copy_type(alloc, ty)?)),
        },
    }
}

// A `switch` keeps the type of its selector.
#[tactic(auto, using(crate::proofs::Scopes::scoping))]
fn keep_selector(
    alloc: Global,
    course: &mut Course,
    operand: Option<u32>,
) -> Result<(), WantOfMemory>
    requires course { IsCourse course.old }
    requires operand { OperandBelow (length course.old.walk.nodes) operand }
    ensures stage { OnOk result (keeping (has_operand course.old.walk.nodes operand) (stage course.old) ≡ stage course.new) }
    ensures course { OnOk result (IsCourse course.new) }
    ensures walk { OnOk result (course.new.walk ≡ course.old.walk) }
{
    let selector = type_of_operand(alloc, &course.walk.nodes, operand)?;
    let mut scope = pop_scope(alloc, &mut course.scopes);
    scope.selector = selector;
    course.scopes.push(scope)
}

// An expression by the operand that its rule gives.
fn keep(
    alloc: Global,
    course: &mut Course,
    want: Want,
    operand: Option<u32>,
) -> Result<(), WantOfMemory>
    requires course { IsCourse course.old }
    requires operand { OperandBelow (length course.old.walk.nodes) operand }
    ensures stage { OnOk result (asked (want_seen want) (told (now course.old.walk) (has_operand course.old.walk.nodes operand)) (stage course.old) ≡ stage course.new) }
    ensures course { OnOk result (IsCourse course.new) }
    ensures walk { OnOk result (course.new.walk ≡ course.old.walk) }
{
    answer_operand(course, operand)?;
    match want {
        Want::Selector => keep_selector(alloc, course, operand),
        _ => Ok(()),
    }
}

/// An expression by what it is wanted for, where the walk has a typing of it at a place.
#[tactic(auto, using(jc_typed::proofs::Growing::growing, jc_stmts_answers::proofs::Staying::staying))]
pub fn ask(
    alloc: Global,
    wanting: &Wanting,
    course: &mut Course,
    want: Want,
    at: u32,
) -> Result<(), WantOfMemory>
    requires course { IsCourse course.old }
    requires at { at < length course.old.walk.nodes }
    ensures stage { OnOk result (asked (want_seen want) (gated (wanted_by wanting.now.table.now (option_copied wanting.now.result) wanting.now.file (want_seen want)) (has course.old.walk.nodes at) (now course.old.walk)) (stage course.old) ≡ stage course.new) }
    ensures course { OnOk result (IsCourse course.new) }
    ensures grows { OnOk result (Grows course.old.walk.nodes course.new.walk.nodes) }
{
    let operand = wanted(alloc, wanting, &mut course.walk, want, at)?;
    keep(alloc, course, want, operand)
}

// A constant of a label that is no i32 breaks a rule, so no answer is kept there: the type of a selector has no such constants (JLS 14.11).
#[tactic(auto, using(crate::proofs::Lasting::answering))]
fn answer_key(course: &mut Course, key: KeyAt) -> Result<(), WantOfMemory>
    requires course { IsCourse course.old }
    requires key { key.named < length course.old.walk.nodes }
    ensures stage { OnOk result (behind (λ (k : Key). AKey k.value k.named) (told (now course.old.walk) (has_key course.old.walk.nodes (Some key))) (stage course.old) ≡ stage course.new) }
    ensures course { OnOk result (IsCourse course.new) }
    ensures kept { OnOk result ((course.new.walk ≡ course.old.walk) × (course.new.scopes ≡ course.old.scopes) × (course.new.locals ≡ course.old.locals)) }
{
    if course.walk.found.is_some() {
        return Ok(());
    }
    match i32::try_from(key.value) {
        Ok(value) => answer(
            course,
            AnswerAt::AKey {
                value,
                names: key.named,
            },
        ),
        Err(_) => Err(WantOfMemory),
    }
}

// A constant more in the scope of its `switch`.
#[tactic(auto, using(crate::proofs::Lasting::answering, crate::proofs::Scopes::scoping))]
fn keep_key(course: &mut Course, scope: Scope, key: KeyAt) -> Result<(), WantOfMemory>
    requires course { IsCourse course.old }
    requires key { key.named < length course.old.walk.nodes }
    ensures stage { OnOk result (kept_label (scope_of scope) (told (now course.old.walk) (has_key course.old.walk.nodes (Some key))) (stage course.old) ≡ stage course.new) }
    ensures course { OnOk result (IsCourse course.new) }
    ensures walk { OnOk result (course.new.walk ≡ course.old.walk) }
{
    answer_key(course, key)?;
    let mut scope = scope;
    scope.keys.push(key.value)?;
    course.scopes.push(scope)
}

// A label by the constant that its rule gives, in the scope of its `switch`.
#[tactic(auto, using(crate::proofs::Lasting::answering, crate::proofs::Scopes::scoping, jc_exprs_nodes::proofs::Appending::appended))]
fn keep_label(course: &mut Course, scope: Scope, key: Option<KeyAt>) -> Result<(), WantOfMemory>
    requires course { IsCourse course.old }
    requires key { KeyBelow (length course.old.walk.nodes) key }
    ensures stage { OnOk result (kept_label (scope_of scope) (told (now course.old.walk) (has_key course.old.walk.nodes key)) (stage course.old) ≡ stage course.new) }
    ensures course { OnOk result (IsCourse course.new) }
    ensures walk { OnOk result (course.new.walk ≡ course.old.walk) }
{
    match key {
        None => course.scopes.push(scope),
        Some(key) => keep_key(course, scope, key),
    }
}

/// A label of the innermost `switch` at a place, where the walk has a typing of it at a place of the arena.
#[tactic(auto, using(jc_typed::proofs::Growing::growing, jc_stmts_answers::proofs::Staying::staying))]
pub fn label(
    alloc: Global,
    table: &Table,
    course: &mut Course,
    place: Place,
    at: u32,
) -> Result<(), WantOfMemory>
    requires course { IsCourse course.old }
    requires at { at < length course.old.walk.nodes }
    ensures stage { OnOk result (labelled (gated (label_of table.now place (top_of (stage course.old).scopes)) (has course.old.walk.nodes at) (now course.old.walk)) (stage course.old) ≡ stage course.new) }
    ensures course { OnOk result (IsCourse course.new) }
    ensures grows { OnOk result (Grows course.old.walk.nodes course.new.walk.nodes) }
{
    let scope = pop_scope(alloc, &mut course.scopes);
    let labelling = Labelling {
        table,
        place,
        scope: &scope,
    };
    let key = label_at(alloc, &labelling, &mut course.walk, at)?;
    keep_label(course, scope, key)
}

/// What an enhanced `for` goes over, where the walk has something of it.
#[tactic(auto, using(crate::proofs::Lasting::answering))]
pub fn go_over(course: &mut Course, elements: Option<ElementsAt>) -> Result<(), WantOfMemory>
    requires course { IsCourse course.old }
    requires elements { SomeElementsBelow (length course.old.walk.nodes) elements }
    ensures stage { OnOk result (gone_over (told (now course.old.walk) (has_elements course.old.walk.nodes elements)) (stage course.old) ≡ stage course.new) }
    ensures course { OnOk result (IsCourse course.new) }
    ensures walk { OnOk result (course.new.walk ≡ course.old.walk) }
{
    match elements {
        None => Ok(()),
        Some(of) => answer(course, AnswerAt::AnEach(of)),
    }
}
