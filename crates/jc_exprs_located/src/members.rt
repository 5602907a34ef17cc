//! Fields of values, and of this object's superclass (JLS 15.11).
ghost use Rattle.std.specs.Prelude.{◌≡◌, ◌<◌, false, Some, length, IfOk, OnOk};
ghost use Rattle.std.specs.Option.{option_copied};
ghost use Rattle.jc_typed.specs.Parts.{Grows, operand_of};
ghost use Rattle.jc_types.specs.Accessors.{supers_of};
ghost use Rattle.jc_exprs_nodes_spec.specs.Gates.{gated};
ghost use Rattle.jc_exprs_nodes_spec.specs.Told.{fine, provided, ran, unless};
ghost use Rattle.jc_exprs_nodes.specs.Walks.{IsPart, known, now};
ghost use Rattle.jc_exprs_settling.specs.Settlings.{IsSettled, has_settled, settled_of};
ghost use Rattle.jc_exprs_parts_spec.specs.Fields.{is_open_type, may_name_field};
ghost use Rattle.jc_exprs_parts_spec.specs.Names.{AtField, AtLength, array_length, array_operand, first_super, is_length, member_of, one_field, super_by, super_member, this_at, value_member};
ghost use Rattle.jc_exprs_worlds.specs.Scenes.{world_of};
ghost use Rattle.jc_exprs_located.specs.Locations.{LocatedBelow, field_of_settled, has_located};

use crate::breaks::{broken, refused};
use crate::fields::{push_field_of, push_used};
use crate::located::LocatedAt;
use crate::this::{instance_break, push_this};
use jc_exprs_fields::{is_open_type, may_name_field, member_fields};
use jc_exprs_nodes::{Judging, Part, Walk};
use jc_exprs_settling::{SettledPart, settled};
use jc_exprs_worlds::Scene;
use jc_rules::{Place, WantOfMemory};
use jc_typed::Nodes;
use jc_types::{FieldId, Ty, class_supers, copy_type, erasure};
use std::alloc::Global;

#[tactic(auto, using(jc_types::proofs::Opened::opened), unfolding(jc_types::specs::Arrays::element))]
fn is_length(ty: &Ty, name: &str) -> bool
    ensures { result ≡ is_length ty.now name.now }
{
    match ty {
        Ty::Array { .. } => name == "length",
        _ => false,
    }
}

// An array of which the length is asked.
#[tactic(auto, using(jc_typed::proofs::Growing::growing))]
fn push_array(
    alloc: Global,
    nodes: &mut Nodes,
    judging: &Judging,
    array: SettledPart,
) -> Result<u32, WantOfMemory>
    requires { IsSettled nodes.old (Some array) }
    ensures value { IfOk result (λ at. operand_of nodes.new at ≡ array_operand judging.now.table.now judging.now.env.now.bounds (settled_of nodes.old array)) }
    ensures within { IfOk result (λ at. at < length nodes.new) }
    ensures grows { Grows nodes.old nodes.new }
{
    let to = erasure(judging.table, judging.env, nodes.ty(array.ty));
    push_used(alloc, nodes, judging, array.part, to)
}

// The length of an array (JLS 10.7).
#[tactic(auto, using(jc_typed::proofs::Growing::growing, jc_exprs_nodes_spec::proofs::Runs::runs), unfolding(jc_exprs_worlds::specs::Scenes::world_of))]
fn length_of<'a>(
    alloc: Global,
    walk: &mut Walk,
    scene: &Scene<'a>,
    place: Place,
    array: SettledPart,
) -> Result<Option<LocatedAt<'a>>, WantOfMemory>
    requires { IsSettled walk.old.nodes (Some array) }
    ensures state { OnOk result ((ran (fine (AtLength place (array_operand scene.now.table.now walk.old.env.bounds (settled_of walk.old.nodes array)))) (now walk.old)).state ≡ now walk.new) }
    ensures value { IfOk result (λ l. (ran (fine (AtLength place (array_operand scene.now.table.now walk.old.env.bounds (settled_of walk.old.nodes array)))) (now walk.old)).has ≡ has_located walk.new.nodes l) }
    ensures below { IfOk result (λ l. LocatedBelow (length walk.new.nodes) l) }
    ensures grows { Grows walk.old.nodes walk.new.nodes }
{
    let judging = Judging {
        table: scene.table,
        env: &walk.env,
    };
    let array = push_array(alloc, &mut walk.nodes, &judging, array)?;
    Ok(Some(LocatedAt::Length { place, array }))
}

// .. where the class of its elements may be named there.
#[tactic(auto, using(jc_typed::proofs::Growing::growing))]
fn array_length<'a>(
    alloc: Global,
    walk: &mut Walk,
    scene: &Scene<'a>,
    place: Place,
    array: SettledPart,
) -> Result<Option<LocatedAt<'a>>, WantOfMemory>
    requires { IsSettled walk.old.nodes (Some array) }
    ensures state { OnOk result ((ran (array_length (world_of scene.now) walk.old.env.bounds place (settled_of walk.old.nodes array)) (now walk.old)).state ≡ now walk.new) }
    ensures value { IfOk result (λ l. (ran (array_length (world_of scene.now) walk.old.env.bounds place (settled_of walk.old.nodes array)) (now walk.old)).has ≡ has_located walk.new.nodes l) }
    ensures below { IfOk result (λ l. LocatedBelow (length walk.new.nodes) l) }
    ensures grows { Grows walk.old.nodes walk.new.nodes }
{
    if is_open_type(scene, walk.nodes.ty(array.ty)) {
        return length_of(alloc, walk, scene, place, array);
    }
    Ok(broken(walk, 618, place))
}

#[tactic(auto, using(jc_typed::proofs::Growing::growing, jc_exprs_nodes_spec::proofs::Runs::runs))]
fn field_of<'a>(
    alloc: Global,
    walk: &mut Walk,
    scene: &Scene<'a>,
    place: Place,
    settled: SettledPart,
    field: FieldId,
) -> Result<Option<LocatedAt<'a>>, WantOfMemory>
    requires { IsSettled walk.old.nodes (Some settled) }
    ensures state { OnOk result ((ran (fine (AtField (field_of_settled scene.now.table.now walk.old.env.bounds place (settled_of walk.old.nodes settled) field))) (now walk.old)).state ≡ now walk.new) }
    ensures value { IfOk result (λ l. (ran (fine (AtField (field_of_settled scene.now.table.now walk.old.env.bounds place (settled_of walk.old.nodes settled) field))) (now walk.old)).has ≡ has_located walk.new.nodes l) }
    ensures below { IfOk result (λ l. LocatedBelow (length walk.new.nodes) l) }
    ensures grows { Grows walk.old.nodes walk.new.nodes }
{
    let judging = Judging {
        table: scene.table,
        env: &walk.env,
    };
    let found = push_field_of(alloc, &mut walk.nodes, &judging, place, settled, field)?;
    Ok(Some(LocatedAt::Field(found)))
}

#[tactic(auto, using(jc_typed::proofs::Growing::growing))]
fn open_field<'a>(
    alloc: Global,
    walk: &mut Walk,
    scene: &Scene<'a>,
    place: Place,
    settled: SettledPart,
    field: FieldId,
) -> Result<Option<LocatedAt<'a>>, WantOfMemory>
    requires { IsSettled walk.old.nodes (Some settled) }
    ensures state { OnOk result ((ran (provided (unless (may_name_field (world_of scene.now) (settled_of walk.old.nodes settled).ty field) 618 place) (fine (AtField (field_of_settled scene.now.table.now walk.old.env.bounds place (settled_of walk.old.nodes settled) field)))) (now walk.old)).state ≡ now walk.new) }
    ensures value { IfOk result (λ l. (ran (provided (unless (may_name_field (world_of scene.now) (settled_of walk.old.nodes settled).ty field) 618 place) (fine (AtField (field_of_settled scene.now.table.now walk.old.env.bounds place (settled_of walk.old.nodes settled) field)))) (now walk.old)).has ≡ has_located walk.new.nodes l) }
    ensures below { IfOk result (λ l. LocatedBelow (length walk.new.nodes) l) }
    ensures grows { Grows walk.old.nodes walk.new.nodes }
{
    if may_name_field(scene, walk.nodes.ty(settled.ty), field) {
        return field_of(alloc, walk, scene, place, settled, field);
    }
    Ok(broken(walk, 618, place))
}

#[tactic(auto, using(jc_typed::proofs::Growing::growing), unfolding(jc_exprs_worlds::specs::Scenes::world_of))]
fn one_field<'a>(
    alloc: Global,
    walk: &mut Walk,
    scene: &Scene<'a>,
    place: Place,
    settled: SettledPart,
    fields: &[FieldId],
) -> Result<Option<LocatedAt<'a>>, WantOfMemory>
    requires { IsSettled walk.old.nodes (Some settled) }
    ensures state { OnOk result ((ran (one_field (world_of scene.now) walk.old.env.bounds place (settled_of walk.old.nodes settled) fields.now) (now walk.old)).state ≡ now walk.new) }
    ensures value { IfOk result (λ l. (ran (one_field (world_of scene.now) walk.old.env.bounds place (settled_of walk.old.nodes settled) fields.now) (now walk.old)).has ≡ has_located walk.new.nodes l) }
    ensures below { IfOk result (λ l. LocatedBelow (length walk.new.nodes) l) }
    ensures grows { Grows walk.old.nodes walk.new.nodes }
{
    match fields {
        [] => Ok(broken(walk, 603, place)),
        [field] => open_field(alloc, walk, scene, place, settled, *field),
        [_, _, ..] => Ok(broken(walk, 622, place)),
    }
}

/// A field of a settled part, or the length of an array: 603 where there is none, 622 where there are several, 618 where it may not be named there.
fn member_of<'a>(
    alloc: Global,
    walk: &mut Walk,
    scene: &Scene<'a>,
    place: Place,
    name: &str,
    settled: SettledPart,
) -> Result<Option<LocatedAt<'a>>, WantOfMemory>
    requires { IsSettled walk.old.nodes (Some settled) }
    ensures state { OnOk result ((ran (member_of (world_of scene.now) place name.now (settled_of walk.old.nodes settled)) (now walk.old)).state ≡ now walk.new) }
    ensures value { IfOk result (λ l. (ran (member_of (world_of scene.now) place name.now (settled_of walk.old.nodes settled)) (now walk.old)).has ≡ has_located walk.new.nodes l) }
    ensures below { IfOk result (λ l. LocatedBelow (length walk.new.nodes) l) }
    ensures grows { Grows walk.old.nodes walk.new.nodes }
{
    let ty = walk.nodes.ty(settled.ty);
    if is_length(ty, name) {
        return array_length(alloc, walk, scene, place, settled);
    }
    let fields = member_fields(alloc, scene.table, ty, settled.by_bounds, name)?;
    one_field(alloc, walk, scene, place, settled, fields.slice())
}

#[tactic(auto, using(jc_typed::proofs::Growing::growing, jc_exprs_nodes_spec::proofs::Runs::runs))]
fn member_of_settled<'a>(
    alloc: Global,
    walk: &mut Walk,
    scene: &Scene<'a>,
    place: Place,
    name: &str,
    settled: Option<SettledPart>,
) -> Result<Option<LocatedAt<'a>>, WantOfMemory>
    requires { IsSettled walk.old.nodes settled }
    ensures state { OnOk result ((gated (member_of (world_of scene.now) place name.now) (has_settled walk.old.nodes settled) (now walk.old)).state ≡ now walk.new) }
    ensures value { IfOk result (λ l. (gated (member_of (world_of scene.now) place name.now) (has_settled walk.old.nodes settled) (now walk.old)).has ≡ has_located walk.new.nodes l) }
    ensures below { IfOk result (λ l. LocatedBelow (length walk.new.nodes) l) }
    ensures grows { Grows walk.old.nodes walk.new.nodes }
{
    match settled {
        None => Ok(None),
        Some(settled) => member_of(alloc, walk, scene, place, name, settled),
    }
}

/// A field of a value, or the length of an array (JLS 15.11.1, 10.7).
#[tactic(auto, using(jc_typed::proofs::Growing::growing))]
pub fn value_member<'a>(
    alloc: Global,
    walk: &mut Walk,
    scene: &Scene<'a>,
    name: &str,
    value: Part,
) -> Result<Option<LocatedAt<'a>>, WantOfMemory>
    requires { IsPart walk.old.nodes value }
    ensures state { OnOk result ((ran (value_member (world_of scene.now) name.now (known walk.old.nodes value.at)) (now walk.old)).state ≡ now walk.new) }
    ensures value { IfOk result (λ l. (ran (value_member (world_of scene.now) name.now (known walk.old.nodes value.at)) (now walk.old)).has ≡ has_located walk.new.nodes l) }
    ensures below { IfOk result (λ l. LocatedBelow (length walk.new.nodes) l) }
    ensures grows { Grows walk.old.nodes walk.new.nodes }
{
    let asked = settled(alloc, scene.table, walk, value)?;
    member_of_settled(alloc, walk, scene, value.start, name, asked)
}

// ---- the superclass (JLS 15.11.2)

fn super_type<'a>(scene: &Scene<'a>) -> Option<&'a Ty>
    ensures { option_copied result ≡ first_super (supers_of scene.now.table.now scene.now.class) }
{
    match class_supers(scene.table, scene.class) {
        [] => None,
        [ty, ..] => Some(ty),
    }
}

// `this` as a value of a type.
#[tactic(auto, using(jc_typed::proofs::Growing::growing, jc_exprs_nodes::proofs::Staying::staying))]
fn push_this_as(
    alloc: Global,
    nodes: &mut Nodes,
    scene: &Scene,
    place: Place,
    ty: &Ty,
) -> Result<SettledPart, WantOfMemory>
    ensures value { IfOk result (λ s. settled_of nodes.new s ≡ record { it = this_at (world_of scene.now) place; ty = ty.now; by_bounds = false }) }
    ensures within { IfOk result (λ s. IsSettled nodes.new (Some s)) }
    ensures grows { Grows nodes.old nodes.new }
{
    let part = push_this(alloc, nodes, scene, place)?;
    let ty = nodes.push_type(copy_type(alloc, ty)?)?;
    Ok(SettledPart {
        part,
        ty,
        by_bounds: false,
    })
}

#[tactic(auto, using(jc_typed::proofs::Growing::growing))]
fn member_of_super<'a>(
    alloc: Global,
    walk: &mut Walk,
    scene: &Scene<'a>,
    place: Place,
    name: &str,
    ty: &Ty,
) -> Result<Option<LocatedAt<'a>>, WantOfMemory>
    ensures state { OnOk result ((ran (member_of (world_of scene.now) place name.now (record { it = this_at (world_of scene.now) place; ty = ty.now; by_bounds = false })) (now walk.old)).state ≡ now walk.new) }
    ensures value { IfOk result (λ l. (ran (member_of (world_of scene.now) place name.now (record { it = this_at (world_of scene.now) place; ty = ty.now; by_bounds = false })) (now walk.old)).has ≡ has_located walk.new.nodes l) }
    ensures below { IfOk result (λ l. LocatedBelow (length walk.new.nodes) l) }
    ensures grows { Grows walk.old.nodes walk.new.nodes }
{
    let this = push_this_as(alloc, &mut walk.nodes, scene, place, ty)?;
    member_of(alloc, walk, scene, place, name, this)
}

#[tactic(auto, using(jc_typed::proofs::Growing::growing))]
fn super_by<'a>(
    alloc: Global,
    walk: &mut Walk,
    scene: &Scene<'a>,
    place: Place,
    name: &str,
    ty: Option<&Ty>,
) -> Result<Option<LocatedAt<'a>>, WantOfMemory>
    ensures state { OnOk result ((ran (super_by (world_of scene.now) place name.now (option_copied ty.entry)) (now walk.old)).state ≡ now walk.new) }
    ensures value { IfOk result (λ l. (ran (super_by (world_of scene.now) place name.now (option_copied ty.entry)) (now walk.old)).has ≡ has_located walk.new.nodes l) }
    ensures below { IfOk result (λ l. LocatedBelow (length walk.new.nodes) l) }
    ensures grows { Grows walk.old.nodes walk.new.nodes }
{
    match ty {
        None => Ok(broken(walk, 603, place)),
        Some(ty) => member_of_super(alloc, walk, scene, place, name, ty),
    }
}

/// A field of this object's superclass.
#[tactic(auto, using(jc_typed::proofs::Growing::growing))]
pub fn super_member<'a>(
    alloc: Global,
    walk: &mut Walk,
    scene: &Scene<'a>,
    place: Place,
    name: &str,
) -> Result<Option<LocatedAt<'a>>, WantOfMemory>
    ensures state { OnOk result ((ran (super_member (world_of scene.now) place name.now) (now walk.old)).state ≡ now walk.new) }
    ensures value { IfOk result (λ l. (ran (super_member (world_of scene.now) place name.now) (now walk.old)).has ≡ has_located walk.new.nodes l) }
    ensures below { IfOk result (λ l. LocatedBelow (length walk.new.nodes) l) }
    ensures grows { Grows walk.old.nodes walk.new.nodes }
{
    match instance_break(scene.here, place) {
        Some(break_of) => Ok(refused(walk, break_of)),
        None => super_by(alloc, walk, scene, place, name, super_type(scene)),
    }
}
