//! Variables that are assigned (JLS 15.26).
ghost use Rattle.std.specs.Prelude.{◌≡◌, ◌<◌, ℕ, false, [], List, Some, length, IfOk, OnOk};
ghost use Rattle.jc_typed.specs.Parts.{BelowVariable, Grows, operand_of, parts, type_of, variable_over};
ghost use Rattle.jc_typed.specs.Trees.{ElementVariable, LocalVariable};
ghost use Rattle.jc_typed.specs.declared.nodes.Node.{Node};
ghost use Rattle.jc_types.specs.Erasing.{erasure};
ghost use Rattle.jc_exprs_nodes_spec.specs.Told.{ran};
ghost use Rattle.jc_exprs_nodes.specs.Walks.{now};
ghost use Rattle.jc_exprs_targets.specs.Targets.{TargetBelow, has_target, target_of};
ghost use Rattle.jc_exprs_parts_spec.specs.Fields.{field_erasure};
ghost use Rattle.jc_exprs_parts_spec.specs.Names.{field_variable, is_forward, target_at, target_of as target_of_located};
ghost use Rattle.jc_exprs_worlds.specs.Scenes.{world_of};
ghost use Rattle.jc_exprs_located.specs.Locations.{FieldBelow, LocatedBelow, field_of, located_of};

use crate::constants::push_copy;
use crate::fields::is_forward;
use crate::located::{FieldFound, LocatedAt};
use jc_exprs_fields::{field_erasure, is_static_field};
use jc_exprs_locals::ScopedLocal;
use jc_exprs_nodes::{Walk, note, refusal};
use jc_exprs_targets::TargetAt;
use jc_exprs_worlds::Scene;
use jc_rules::{Items, Place, WantOfMemory};
use jc_typed::{Nodes, VariableNode};
use jc_types::{Env, Erased, Table, erasure};
use std::alloc::Global;

#[tactic(auto, using(jc_typed::proofs::Growing::growing))]
fn push_local(
    alloc: Global,
    nodes: &mut Nodes,
    table: &Table,
    place: Place,
    local: &ScopedLocal,
) -> Result<TargetAt, WantOfMemory>
    ensures value { IfOk result (λ v. target_of nodes.new v ≡ target_at place local.now.ty (erasure table.now [] local.now.ty) (LocalVariable place local.now.number) false) }
    ensures below { IfOk result (λ v. TargetBelow (length nodes.new) (Some v)) }
    ensures grows { Grows nodes.old nodes.new }
{
    let env = Env {
        bounds: Items::new(alloc),
    };
    let declared = erasure(table, &env, &local.ty);
    let ty = push_copy(alloc, nodes, &local.ty)?;
    let variable = nodes.push_variable(VariableNode::Local {
        place,
        local: local.number,
    })?;
    Ok(TargetAt {
        start: place,
        place,
        ty,
        declared,
        variable,
        is_forward: false,
    })
}

fn variable_node(table: &Table, found: FieldFound) -> VariableNode
    ensures value { (ns : List Node) → variable_over (parts ns) result ≡ field_variable table.now (field_of ns found) }
    ensures below { (n : ℕ) → FieldBelow n found → BelowVariable n result }
{
    if is_static_field(table, found.field) {
        return VariableNode::StaticField {
            place: found.place,
            before: found.before,
            field: found.field,
            is_simple: found.is_simple,
        };
    }
    VariableNode::Field {
        place: found.place,
        of: found.of,
        field: found.field,
        is_raw: found.is_raw,
    }
}

#[tactic(auto, using(jc_typed::proofs::Growing::growing), unfolding(jc_exprs_worlds::specs::Scenes::world_of))]
fn push_field(
    alloc: Global,
    nodes: &mut Nodes,
    scene: &Scene,
    found: FieldFound,
) -> Result<TargetAt, WantOfMemory>
    requires { FieldBelow (length nodes.old) found }
    ensures value { IfOk result (λ v. target_of nodes.new v ≡ target_at found.place (type_of nodes.old found.ty) (field_erasure scene.now.table.now found.field) (field_variable scene.now.table.now (field_of nodes.old found)) (is_forward (world_of scene.now) (field_of nodes.old found))) }
    ensures below { IfOk result (λ v. TargetBelow (length nodes.new) (Some v)) }
    ensures grows { Grows nodes.old nodes.new }
{
    let declared = field_erasure(alloc, scene.table, found.field)?;
    let variable = nodes.push_variable(variable_node(scene.table, found))?;
    Ok(TargetAt {
        start: found.place,
        place: found.place,
        ty: found.ty,
        declared,
        variable,
        is_forward: is_forward(scene, found),
    })
}

#[tactic(auto, using(jc_typed::proofs::Growing::growing))]
fn push_element(
    nodes: &mut Nodes,
    place: Place,
    ty: u32,
    declared: Erased,
    array: u32,
    index: u32,
) -> Result<TargetAt, WantOfMemory>
    requires { (array < length nodes.old) × (index < length nodes.old) × (ty < length nodes.old) }
    ensures value { IfOk result (λ v. target_of nodes.new v ≡ target_at place (type_of nodes.old ty) declared (ElementVariable place (operand_of nodes.old array) (operand_of nodes.old index)) false) }
    ensures below { IfOk result (λ v. TargetBelow (length nodes.new) (Some v)) }
    ensures grows { Grows nodes.old nodes.new }
{
    let variable = nodes.push_variable(VariableNode::Element {
        place,
        array,
        index,
    })?;
    Ok(TargetAt {
        start: place,
        place,
        ty,
        declared,
        variable,
        is_forward: false,
    })
}

/// The variable that is found: none at the length of an array (610).
#[tactic(auto, using(jc_typed::proofs::Growing::growing), unfolding(jc_exprs_worlds::specs::Scenes::world_of, jc_exprs_nodes_spec::specs::Told::ran, jc_exprs_parts_spec::specs::Names::target_of))]
pub fn target_of(
    alloc: Global,
    walk: &mut Walk,
    scene: &Scene,
    located: LocatedAt,
) -> Result<Option<TargetAt>, WantOfMemory>
    requires { LocatedBelow (length walk.old.nodes) (Some located) }
    ensures state { OnOk result ((ran (target_of_located (world_of scene.now) (located_of walk.old.nodes located.entry)) (now walk.old)).state ≡ now walk.new) }
    ensures value { IfOk result (λ v. (ran (target_of_located (world_of scene.now) (located_of walk.old.nodes located.entry)) (now walk.old)).has ≡ has_target walk.new.nodes v) }
    ensures below { IfOk result (λ v. TargetBelow (length walk.new.nodes) v) }
    ensures grows { Grows walk.old.nodes walk.new.nodes }
{
    match located {
        LocatedAt::Local { place, local } => {
            let nodes = &mut walk.nodes;
            Ok(Some(push_local(alloc, nodes, scene.table, place, local)?))
        }
        LocatedAt::Field(found) => Ok(Some(push_field(alloc, &mut walk.nodes, scene, found)?)),
        LocatedAt::Element {
            place,
            array,
            index,
            ty,
        } => {
            let declared = erasure(scene.table, &walk.env, walk.nodes.ty(ty));
            let nodes = &mut walk.nodes;
            Ok(Some(push_element(nodes, place, ty, declared, array, index)?))
        }
        LocatedAt::Length { place, .. } => {
            note(walk, refusal(610, place));
            Ok(None)
        }
    }
}
