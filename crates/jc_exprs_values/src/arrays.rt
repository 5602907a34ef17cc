//! Creations of arrays by their lengths, and array initialisers (JLS 10.6, 15.10).
ghost use Rattle.std.specs.Prelude.{◌≡◌, ◌<◌, ◌++◌, ◌||◌, None, length, map, IfOk, OnOk};
ghost use Rattle.jc_typed.specs.Parts.{Grows, operand_of, operands_of};
ghost use Rattle.jc_typed.specs.Trees.{ArrayOf, MoreOperands, NoOperands, Operand};
ghost use Rattle.jc_types.specs.Arrays.{element};
ghost use Rattle.jc_types.specs.Reifying.{reifiable};
ghost use Rattle.jc_types.specs.declared.form.Primitive.TheVariants.{Int};
ghost use Rattle.jc_types.specs.declared.form.Ty.TheVariants.{Prim};
ghost use Rattle.jc_convert.specs.Converting.{invocation};
ghost use Rattle.jc_exprs_nodes_spec.specs.Told.{fine, ran, unless};
ghost use Rattle.jc_exprs_nodes_spec.specs.Typeds.{converted, node, operands_of as in_order, type_of as counted_type, unconverted};
ghost use Rattle.jc_exprs_nodes.specs.Walks.{AllBelow, IsPart, as_breaks, broken_by, has, known, now};
ghost use Rattle.jc_exprs_gathering.specs.Gathered.{AllParts, IsTyped, has_operand};
ghost use Rattle.jc_exprs_parts_spec.specs.Values.{assigned, assigned_by, length_breaks, lengths, listed, listed_breaks, sized};
ghost use Rattle.jc_exprs_values.specs.Noted.{is_broken, noted};

use crate::noting::{Checked, formed, note_some, push_invoked};
use jc_convert::{Converts, assignment};
use jc_exprs_constants::constant_part;
use jc_exprs_gathering::typed_part;
use jc_exprs_nodes::{
    Judging, Part, Walk, converted, missing, note, push_operand_list, refusal, refused, unconverted,
};
use jc_rules::{Place, Refusal, WantOfMemory};
use jc_typed::{ExprForm, ListNode, OperandNode};
use jc_types::{Primitive, Table, Ty, element, reifiable};
use std::alloc::Global;

// The break of a type of elements that isn't wholly there at run time.
fn unreifiable(table: &Table, place: Place, ty: &Ty) -> Option<Refusal>
    ensures { as_breaks result ≡ unless (reifiable table.now ty.now) 612 place }
{
    if reifiable(table, ty) {
        return None;
    }
    Some(refusal(612, place))
}

// A length, promoted to int, and whether it can't be.
fn push_length(
    alloc: Global,
    table: &Table,
    walk: &mut Walk,
    at: u32,
) -> Result<Checked, WantOfMemory>
    requires { IsTyped walk.old.nodes at }
    ensures state { OnOk result (noted (now walk.old) (unconverted 607 (known walk.old.nodes at).start (invocation table.now walk.old.env.bounds (counted_type (known walk.old.nodes at)) (Prim Int))) ≡ now walk.new) }
    ensures value { IfOk result (λ r. operand_of walk.new.nodes r.at ≡ converted table.now walk.old.env.bounds (known walk.old.nodes at) (invocation table.now walk.old.env.bounds (counted_type (known walk.old.nodes at)) (Prim Int))) }
    ensures broken { IfOk result (λ r. r.is_broken ≡ is_broken (unconverted 607 (known walk.old.nodes at).start (invocation table.now walk.old.env.bounds (counted_type (known walk.old.nodes at)) (Prim Int)))) }
    ensures within { IfOk result (λ r. r.at < length walk.new.nodes) }
    ensures grows { Grows walk.old.nodes walk.new.nodes }
{
    let int = Ty::Prim(Primitive::Int);
    let part = typed_part(&walk.nodes, at);
    push_invoked(alloc, table, walk, part, &int)
}

// A length more.
#[tactic(auto, using(jc_typed::proofs::Growing::growing))]
fn push_length_behind(
    alloc: Global,
    table: &Table,
    walk: &mut Walk,
    before: Checked,
    at: u32,
) -> Result<Checked, WantOfMemory>
    requires before { before.at < length walk.old.nodes }
    requires at { IsTyped walk.old.nodes at }
    ensures state { OnOk result (noted (now walk.old) (unconverted 607 (known walk.old.nodes at).start (invocation table.now walk.old.env.bounds (counted_type (known walk.old.nodes at)) (Prim Int))) ≡ now walk.new) }
    ensures value { IfOk result (λ r. operands_of walk.new.nodes r.at ≡ MoreOperands (operands_of walk.old.nodes before.at) (converted table.now walk.old.env.bounds (known walk.old.nodes at) (invocation table.now walk.old.env.bounds (counted_type (known walk.old.nodes at)) (Prim Int)))) }
    ensures broken { IfOk result (λ r. r.is_broken ≡ (before.is_broken || is_broken (unconverted 607 (known walk.old.nodes at).start (invocation table.now walk.old.env.bounds (counted_type (known walk.old.nodes at)) (Prim Int))))) }
    ensures within { IfOk result (λ r. r.at < length walk.new.nodes) }
    ensures grows { Grows walk.old.nodes walk.new.nodes }
{
    let length = push_length(alloc, table, walk, at)?;
    let list = walk.nodes.push_operands(ListNode::More {
        before: before.at,
        last: length.at,
    })?;
    Ok(Checked {
        at: list,
        is_broken: before.is_broken || length.is_broken,
    })
}

// A list of lengths, each promoted to int, and whether one of them can't be.
#[tactic(auto, using(jc_typed::proofs::Growing::growing, jc_exprs_gathering::proofs::Gathering::gathering))]
fn push_lengths(
    alloc: Global,
    table: &Table,
    walk: &mut Walk,
    ats: &[u32],
) -> Result<Checked, WantOfMemory>
    requires { AllParts walk.old.nodes ats.now }
    ensures state { OnOk result (noted (now walk.old) (length_breaks table.now walk.old.env.bounds (map (known walk.old.nodes) ats.now)) ≡ now walk.new) }
    ensures value { IfOk result (λ r. operands_of walk.new.nodes r.at ≡ in_order (lengths table.now walk.old.env.bounds (map (known walk.old.nodes) ats.now)) NoOperands) }
    ensures broken { IfOk result (λ r. r.is_broken ≡ is_broken (length_breaks table.now walk.old.env.bounds (map (known walk.old.nodes) ats.now))) }
    ensures within { IfOk result (λ r. r.at < length walk.new.nodes) }
    ensures grows { Grows walk.old.nodes walk.new.nodes }
{
    let none = walk.nodes.push_operands(ListNode::Empty)?;
    let mut lengths = Checked {
        at: none,
        is_broken: false,
    };
    let mut rest = ats;
    while let [at, more @ ..] = rest {
        lengths = push_length_behind(alloc, table, walk, lengths, *at)?;
        rest = more;
    }
    Ok(lengths)
}

// The lengths of a created array, and whether a premise of the creation fails.
fn checked_lengths(
    alloc: Global,
    table: &Table,
    walk: &mut Walk,
    unreifiable: Option<Refusal>,
    ats: &[u32],
) -> Result<Checked, WantOfMemory>
    requires { AllParts walk.old.nodes ats.now }
    ensures state { OnOk result (noted (now walk.old) (as_breaks unreifiable ++ length_breaks table.now walk.old.env.bounds (map (known walk.old.nodes) ats.now)) ≡ now walk.new) }
    ensures value { IfOk result (λ r. operands_of walk.new.nodes r.at ≡ in_order (lengths table.now walk.old.env.bounds (map (known walk.old.nodes) ats.now)) NoOperands) }
    ensures broken { IfOk result (λ r. r.is_broken ≡ is_broken (as_breaks unreifiable ++ length_breaks table.now walk.old.env.bounds (map (known walk.old.nodes) ats.now))) }
    ensures within { IfOk result (λ r. r.at < length walk.new.nodes) }
    ensures grows { Grows walk.old.nodes walk.new.nodes }
{
    let is_broken = note_some(walk, unreifiable);
    let lengths = push_lengths(alloc, table, walk, ats)?;
    Ok(Checked {
        at: lengths.at,
        is_broken: is_broken || lengths.is_broken,
    })
}

/// A creation of an array of a type by its lengths: 612 where the type isn't reifiable, and 607 at each length that isn't promoted to int.
pub fn sized(
    alloc: Global,
    table: &Table,
    walk: &mut Walk,
    place: Place,
    ty: &Ty,
    ats: &[u32],
) -> Result<u32, WantOfMemory>
    requires { AllParts walk.old.nodes ats.now }
    ensures state { OnOk result ((ran (sized table.now place ty.now (map (known walk.old.nodes) ats.now)) (now walk.old)).state ≡ now walk.new) }
    ensures value { IfOk result (λ at. (ran (sized table.now place ty.now (map (known walk.old.nodes) ats.now)) (now walk.old)).has ≡ has walk.new.nodes at) }
    ensures within { IfOk result (λ at. at < length walk.new.nodes) }
    ensures grows { Grows walk.old.nodes walk.new.nodes }
{
    let unreifiable = unreifiable(table, place, ty);
    let lengths = checked_lengths(alloc, table, walk, unreifiable, ats)?;
    if lengths.is_broken {
        return missing(walk);
    }
    formed(
        alloc,
        walk,
        place,
        ty,
        ExprForm::NewArray {
            lengths: lengths.at,
        },
    )
}

fn missing_operand(walk: &mut Walk) -> Result<u32, WantOfMemory>
    ensures state { OnOk result (now walk.old ≡ now walk.new) }
    ensures value { IfOk result (λ at. None ≡ has_operand walk.new.nodes at) }
    ensures within { IfOk result (λ at. at < length walk.new.nodes) }
    ensures grows { Grows walk.old.nodes walk.new.nodes }
{
    walk.nodes.push_operand(OperandNode::Missing)
}

// A value of an initialiser that breaks a rule.
#[tactic(auto, unfolding(jc_exprs_nodes_spec::specs::Told::ran))]
fn refused_operand(walk: &mut Walk, found: Refusal) -> Result<u32, WantOfMemory>
    ensures state { OnOk result ((ran (broken_by {A = Operand} found) (now walk.old)).state ≡ now walk.new) }
    ensures value { IfOk result (λ at. (ran (broken_by {A = Operand} found) (now walk.old)).has ≡ has_operand walk.new.nodes at) }
    ensures within { IfOk result (λ at. at < length walk.new.nodes) }
    ensures grows { Grows walk.old.nodes walk.new.nodes }
{
    note(walk, found);
    missing_operand(walk)
}

// A value of an initialiser that is converted.
#[tactic(auto, using(crate::proofs::Ruling::giving), unfolding(jc_exprs_nodes_spec::specs::Told::ran))]
fn converted_operand(
    alloc: Global,
    table: &Table,
    walk: &mut Walk,
    part: Part,
    converts: &Converts,
) -> Result<u32, WantOfMemory>
    requires { IsPart walk.old.nodes part }
    ensures state { OnOk result ((ran (fine (converted table.now walk.old.env.bounds (known walk.old.nodes part.at) converts.now)) (now walk.old)).state ≡ now walk.new) }
    ensures value { IfOk result (λ at. (ran (fine (converted table.now walk.old.env.bounds (known walk.old.nodes part.at) converts.now)) (now walk.old)).has ≡ has_operand walk.new.nodes at) }
    ensures within { IfOk result (λ at. at < length walk.new.nodes) }
    ensures grows { Grows walk.old.nodes walk.new.nodes }
{
    let judging = Judging {
        table,
        env: &walk.env,
    };
    converted(alloc, &mut walk.nodes, &judging, part, converts)
}

// A value of an initialiser, or none where no conversion takes it to the type of the elements.
fn push_assigned(
    alloc: Global,
    table: &Table,
    walk: &mut Walk,
    part: Part,
    converts: &Converts,
) -> Result<u32, WantOfMemory>
    requires { IsPart walk.old.nodes part }
    ensures state { OnOk result ((ran (assigned_by table.now walk.old.env.bounds (known walk.old.nodes part.at) converts.now) (now walk.old)).state ≡ now walk.new) }
    ensures value { IfOk result (λ at. (ran (assigned_by table.now walk.old.env.bounds (known walk.old.nodes part.at) converts.now) (now walk.old)).has ≡ has_operand walk.new.nodes at) }
    ensures within { IfOk result (λ at. at < length walk.new.nodes) }
    ensures grows { Grows walk.old.nodes walk.new.nodes }
{
    match unconverted(607, part.start, converts) {
        Some(found) => refused_operand(walk, found),
        None => converted_operand(alloc, table, walk, part, converts),
    }
}

/// A value of an array initialiser, which goes to the type of the elements by assignment: an operand, or none and 607 where no conversion takes it there.
pub fn assigned(
    alloc: Global,
    table: &Table,
    walk: &mut Walk,
    to: &Ty,
    part: Part,
) -> Result<u32, WantOfMemory>
    requires { IsPart walk.old.nodes part }
    ensures state { OnOk result ((ran (assigned table.now to.now (known walk.old.nodes part.at)) (now walk.old)).state ≡ now walk.new) }
    ensures value { IfOk result (λ at. (ran (assigned table.now to.now (known walk.old.nodes part.at)) (now walk.old)).has ≡ has_operand walk.new.nodes at) }
    ensures within { IfOk result (λ at. at < length walk.new.nodes) }
    ensures grows { Grows walk.old.nodes walk.new.nodes }
{
    let constant = constant_part(&walk.nodes, part);
    let from = walk.nodes.ty(part.ty);
    let converts = assignment(alloc, table, &walk.env, from, constant, to)?;
    push_assigned(alloc, table, walk, part, &converts)
}

/// An array of operands, without a premise.
#[tactic(auto, using(jc_typed::proofs::Growing::growing))]
pub fn array_of(
    alloc: Global,
    walk: &mut Walk,
    place: Place,
    ty: &Ty,
    ats: &[u32],
) -> Result<u32, WantOfMemory>
    requires { AllBelow (length walk.old.nodes) ats.now }
    ensures state { OnOk result ((ran (fine (node place ty.now (ArrayOf (in_order (map (operand_of walk.old.nodes) ats.now) NoOperands)))) (now walk.old)).state ≡ now walk.new) }
    ensures value { IfOk result (λ at. (ran (fine (node place ty.now (ArrayOf (in_order (map (operand_of walk.old.nodes) ats.now) NoOperands)))) (now walk.old)).has ≡ has walk.new.nodes at) }
    ensures within { IfOk result (λ at. at < length walk.new.nodes) }
    ensures grows { Grows walk.old.nodes walk.new.nodes }
{
    let elements = push_operand_list(&mut walk.nodes, ats)?;
    formed(alloc, walk, place, ty, ExprForm::ArrayOf { elements })
}

fn listed_break(
    alloc: Global,
    table: &Table,
    place: Place,
    ty: &Ty,
) -> Result<Option<Refusal>, WantOfMemory>
    ensures { IfOk result (λ r. as_breaks r ≡ listed_breaks table.now place ty.now (element ty.now)) }
{
    match element(alloc, ty)? {
        None => Ok(Some(refusal(607, place))),
        Some(_) => Ok(unreifiable(table, place, ty)),
    }
}

/// An array initialiser of a type with its values, which are operands: 607 where no array is wanted, and 612 where the type of its elements isn't reifiable.
pub fn listed(
    alloc: Global,
    table: &Table,
    walk: &mut Walk,
    place: Place,
    ty: &Ty,
    ats: &[u32],
) -> Result<u32, WantOfMemory>
    requires { AllBelow (length walk.old.nodes) ats.now }
    ensures state { OnOk result ((ran (listed table.now place ty.now (map (operand_of walk.old.nodes) ats.now)) (now walk.old)).state ≡ now walk.new) }
    ensures value { IfOk result (λ at. (ran (listed table.now place ty.now (map (operand_of walk.old.nodes) ats.now)) (now walk.old)).has ≡ has walk.new.nodes at) }
    ensures within { IfOk result (λ at. at < length walk.new.nodes) }
    ensures grows { Grows walk.old.nodes walk.new.nodes }
{
    match listed_break(alloc, table, place, ty)? {
        Some(found) => refused(walk, found),
        None => array_of(alloc, walk, place, ty, ats),
    }
}
