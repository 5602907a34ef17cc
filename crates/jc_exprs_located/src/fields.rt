//! Fields that are found.
ghost use Rattle.std.specs.Prelude.{◌≡◌, ◌<◌, ◌&&◌, Some, length, IfOk};
ghost use Rattle.jc_typed.specs.Parts.{Grows, operand_of};
ghost use Rattle.jc_exprs_nodes_spec.specs.Typeds.{stepped, type_of as counted_type, use_guard};
ghost use Rattle.jc_exprs_nodes.specs.Walks.{IsPart, known};
ghost use Rattle.jc_exprs_settling.specs.Settlings.{IsSettled, settled_of};
ghost use Rattle.jc_exprs_parts_spec.specs.Names.{class_field, is_before_declared, is_forward_in, is_that, own_field, same_truth};
ghost use Rattle.jc_exprs_worlds.specs.Scenes.{initialising_of, world_of};
ghost use Rattle.jc_exprs_located.specs.Locations.{FieldBelow, field_of, field_of_settled};

use crate::located::FieldFound;
use crate::this::push_this;
use jc_exprs_fields::{
    declared_field, field_class, field_in, field_offset, is_raw_as, is_static_field,
};
use jc_exprs_nodes::{Judging, Part, push_one_operand, push_use_guard_at, stepped};
use jc_exprs_settling::SettledPart;
use jc_exprs_worlds::{Initialising, Scene, this_type};
use jc_rules::{Place, WantOfMemory};
use jc_typed::{ListNode, Nodes};
use jc_types::{Base, Erased, FieldId};
use std::alloc::Global;

// ---- forward references (JLS 8.3.2.3)

fn is_that(field: FieldId, other: Option<FieldId>) -> bool
    ensures { result ≡ is_that field other }
{
    match other {
        None => false,
        Some(other) => field.0 == other.0,
    }
}

fn same_truth(left: bool, right: bool) -> bool
    ensures { result ≡ same_truth left right }
{
    if left { right } else { !right }
}

#[tactic(auto, unfolding(jc_exprs_worlds::specs::Scenes::world_of))]
fn is_before_declared(scene: &Scene, place: Place, field: FieldId, by: Initialising) -> bool
    ensures { result ≡ is_before_declared (world_of scene.now) place field (record { is_static = by.is_static; field = by.field }) }
{
    let is_behind = is_that(field, by.field) || place.at < field_offset(scene.table, field);
    same_truth(by.is_static, is_static_field(scene.table, field))
        && field_class(scene.table, field).0 == scene.class.0
        && is_behind
}

fn is_forward_in(scene: &Scene, place: Place, field: FieldId, by: Option<Initialising>) -> bool
    ensures { result ≡ is_forward_in (world_of scene.now) place field (initialising_of by) }
{
    match by {
        None => false,
        Some(by) => is_before_declared(scene, place, field, by),
    }
}

/// Whether a field is named simply in an initialiser of its class, before it is declared.
#[tactic(auto, unfolding(jc_exprs_worlds::specs::Scenes::world_of))]
pub fn is_forward(scene: &Scene, found: FieldFound) -> bool
    ensures { result ≡ (found.is_simple && is_forward_in (world_of scene.now) found.place found.field (world_of scene.now).initialising) }
{
    found.is_simple && is_forward_in(scene, found.place, found.field, scene.initialising)
}

// ---- fields of values

/// A part that is used as a value of an erased type.
#[tactic(auto, using(jc_typed::proofs::Growing::growing, jc_exprs_nodes::proofs::Staying::staying))]
pub fn push_used(
    alloc: Global,
    nodes: &mut Nodes,
    judging: &Judging,
    part: Part,
    to: Erased,
) -> Result<u32, WantOfMemory>
    requires { IsPart nodes.old part }
    ensures value { IfOk result (λ at. operand_of nodes.new at ≡ stepped (known nodes.old part.at) (use_guard judging.now.table.now judging.now.env.now.bounds (counted_type (known nodes.old part.at)) to)) }
    ensures within { IfOk result (λ at. at < length nodes.new) }
    ensures grows { Grows nodes.old nodes.new }
{
    let steps = push_use_guard_at(alloc, nodes, judging, part.lead, part.ty, to)?;
    stepped(nodes, part, steps)
}

/// A field of a settled part, for an expression at a place: the object is used as one of the field's class.
#[tactic(auto, using(jc_typed::proofs::Growing::growing, jc_exprs_nodes::proofs::Staying::staying), unfolding(jc_exprs_worlds::specs::Scenes::world_of))]
pub fn push_field_of(
    alloc: Global,
    nodes: &mut Nodes,
    judging: &Judging,
    place: Place,
    settled: SettledPart,
    field: FieldId,
) -> Result<FieldFound, WantOfMemory>
    requires { IsSettled nodes.old (Some settled) }
    ensures value { IfOk result (λ f. field_of nodes.new f ≡ field_of_settled judging.now.table.now judging.now.env.now.bounds place (settled_of nodes.old settled) field) }
    ensures below { IfOk result (λ f. FieldBelow (length nodes.new) f) }
    ensures grows { Grows nodes.old nodes.new }
{
    let table = judging.table;
    let class = field_class(table, field);
    let is_raw = is_raw_as(alloc, table, nodes.ty(settled.ty), class)?;
    let seen = field_in(alloc, table, nodes.ty(settled.ty), field)?;
    let to = Erased {
        base: Base::Class(class),
        dims: 0,
    };
    let before = push_one_operand(nodes, settled.part.at)?;
    let of = push_used(alloc, nodes, judging, settled.part, to)?;
    let ty = nodes.push_type(seen)?;
    Ok(FieldFound {
        place,
        field,
        before,
        of,
        ty,
        is_raw,
        is_simple: false,
    })
}

/// A field of the class of the place, or of one round it, by its simple name.
#[tactic(auto, using(jc_typed::proofs::Growing::growing, jc_exprs_nodes::proofs::Staying::staying), unfolding(jc_exprs_worlds::specs::Scenes::world_of))]
pub fn push_own_field(
    alloc: Global,
    nodes: &mut Nodes,
    scene: &Scene,
    place: Place,
    field: FieldId,
) -> Result<FieldFound, WantOfMemory>
    ensures value { IfOk result (λ f. field_of nodes.new f ≡ own_field (world_of scene.now) place field) }
    ensures below { IfOk result (λ f. FieldBelow (length nodes.new) f) }
    ensures grows { Grows nodes.old nodes.new }
{
    let this = this_type(alloc, scene)?;
    let class = field_class(scene.table, field);
    let is_raw = is_raw_as(alloc, scene.table, &this, class)?;
    let seen = field_in(alloc, scene.table, &this, field)?;
    let before = nodes.push_operands(ListNode::Empty)?;
    let of = push_this(alloc, nodes, scene, place)?;
    let ty = nodes.push_type(seen)?;
    Ok(FieldFound {
        place,
        field,
        before,
        of: of.at,
        ty,
        is_raw,
        is_simple: true,
    })
}

/// A static field behind the name of a class.
#[tactic(auto, using(jc_typed::proofs::Growing::growing, jc_exprs_nodes::proofs::Staying::staying), unfolding(jc_exprs_worlds::specs::Scenes::world_of))]
pub fn push_class_field(
    alloc: Global,
    nodes: &mut Nodes,
    scene: &Scene,
    place: Place,
    field: FieldId,
) -> Result<FieldFound, WantOfMemory>
    ensures value { IfOk result (λ f. field_of nodes.new f ≡ class_field (world_of scene.now) place field) }
    ensures below { IfOk result (λ f. FieldBelow (length nodes.new) f) }
    ensures grows { Grows nodes.old nodes.new }
{
    let declared = declared_field(alloc, scene.table, field)?;
    let before = nodes.push_operands(ListNode::Empty)?;
    let of = push_this(alloc, nodes, scene, place)?;
    let ty = nodes.push_type(declared)?;
    Ok(FieldFound {
        place,
        field,
        before,
        of: of.at,
        ty,
        is_raw: false,
        is_simple: false,
    })
}
