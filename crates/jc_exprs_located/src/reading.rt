//! Values of what is found (JLS 6.5.6, 15.11, 15.13).
ghost use Rattle.std.specs.Prelude.{◌≡◌, ◌<◌, [], Some, if◌then◌else◌, length, IfOk, OnOk};
ghost use Rattle.jc_typed.specs.Parts.{BelowForm, Grows, form_over, operand_of, operands_of, parts, type_of};
ghost use Rattle.jc_typed.specs.Trees.{Element, Length, Local, NoOperands};
ghost use Rattle.jc_types.specs.declared.form.Primitive.TheVariants.{Int};
ghost use Rattle.jc_types.specs.declared.form.Ty.TheVariants.{Prim};
ghost use Rattle.jc_exprs_nodes_spec.specs.Told.{fine, onward, ran};
ghost use Rattle.jc_exprs_nodes_spec.specs.Typeds.{captured, node, one_operand, plain, read_guard};
ghost use Rattle.jc_exprs_nodes.specs.Walks.{IsPart, has, known, now};
ghost use Rattle.jc_exprs_locals.specs.Scoped.{local_of};
ghost use Rattle.jc_exprs_parts_spec.specs.Fields.{field_erasure, is_static_field};
ghost use Rattle.jc_exprs_parts_spec.specs.Names.{constant_at, field_value, local_constant, object_known, object_value, static_known, static_value, value_of};
ghost use Rattle.jc_exprs_parts_spec.specs.Worlds.{constant_field};
ghost use Rattle.jc_exprs_worlds.specs.Scenes.{world_of};
ghost use Rattle.jc_exprs_located.specs.Locations.{FieldBelow, LocatedBelow, field_of, located_of};

use crate::constants::{known_local, push_constant};
use crate::fields::is_forward;
use crate::located::{FieldFound, LocatedAt};
use jc_exprs_fields::{field_erasure, is_static_field};
use jc_exprs_locals::ScopedLocal;
use jc_exprs_nodes::{
    Formed, Judging, Part, Walk, broken, captured, captured_at, part, push_one_operand,
    push_read_guard, uncaptured,
};
use jc_exprs_worlds::{Scene, constant_field};
use jc_rules::{Place, WantOfMemory};
use jc_typed::{ExprForm, ListNode, NamesNode, StepsNode, form_below, same_form};
use jc_types::{Constant, Primitive, Table, Ty, copy_type};
use std::alloc::Global;

// A local that is no constant variable.
#[tactic(auto, using(jc_typed::proofs::Growing::growing))]
fn read_local(
    alloc: Global,
    walk: &mut Walk,
    table: &Table,
    place: Place,
    local: &ScopedLocal,
) -> Result<u32, WantOfMemory>
    ensures state { OnOk result ((ran (captured table.now place local.now.ty (Local local.now.number) []) (now walk.old)).state ≡ now walk.new) }
    ensures value { IfOk result (λ at. (ran (captured table.now place local.now.ty (Local local.now.number) []) (now walk.old)).has ≡ has walk.new.nodes at) }
    ensures within { IfOk result (λ at. at < length walk.new.nodes) }
    ensures grows { Grows walk.old.nodes walk.new.nodes }
{
    let lead = walk.nodes.push_steps(StepsNode::Empty)?;
    let form = ExprForm::Local {
        local: local.number,
    };
    captured(alloc, table, walk, &local.ty, Formed { place, form, lead })
}

#[tactic(auto, unfolding(jc_exprs_worlds::specs::Scenes::world_of))]
fn value_of_local(
    alloc: Global,
    walk: &mut Walk,
    scene: &Scene,
    place: Place,
    local: &ScopedLocal,
) -> Result<u32, WantOfMemory>
    ensures state { OnOk result ((ran (local_constant (world_of scene.now) place (local_of local.now) local.now.constant) (now walk.old)).state ≡ now walk.new) }
    ensures value { IfOk result (λ at. (ran (local_constant (world_of scene.now) place (local_of local.now) local.now.constant) (now walk.old)).has ≡ has walk.new.nodes at) }
    ensures within { IfOk result (λ at. at < length walk.new.nodes) }
    ensures grows { Grows walk.old.nodes walk.new.nodes }
{
    match &local.constant {
        Some(constant) => known_local(alloc, walk, place, local, constant),
        None => read_local(alloc, walk, scene.table, place, local),
    }
}

// A field that is read: what is read of its declared type is tested for the type that it has there.
#[tactic(auto, using(jc_typed::proofs::Growing::growing))]
fn read_field(
    alloc: Global,
    walk: &mut Walk,
    table: &Table,
    found: FieldFound,
    form: ExprForm,
) -> Result<u32, WantOfMemory>
    requires found { FieldBelow (length walk.old.nodes) found }
    requires form { BelowForm (length walk.old.nodes) form }
    ensures state { OnOk result ((ran (captured table.now found.place (type_of walk.old.nodes found.ty) (form_over (parts walk.old.nodes) form) (read_guard table.now walk.old.env.bounds (field_erasure table.now found.field) (type_of walk.old.nodes found.ty))) (now walk.old)).state ≡ now walk.new) }
    ensures value { IfOk result (λ at. (ran (captured table.now found.place (type_of walk.old.nodes found.ty) (form_over (parts walk.old.nodes) form) (read_guard table.now walk.old.env.bounds (field_erasure table.now found.field) (type_of walk.old.nodes found.ty))) (now walk.old)).has ≡ has walk.new.nodes at) }
    ensures within { IfOk result (λ at. at < length walk.new.nodes) }
    ensures grows { Grows walk.old.nodes walk.new.nodes }
{
    same_form();
    form_below();
    let declared = field_erasure(alloc, table, found.field)?;
    let ty = copy_type(alloc, walk.nodes.ty(found.ty))?;
    let judging = Judging {
        table,
        env: &walk.env,
    };
    let lead = push_read_guard(alloc, &mut walk.nodes, &judging, declared, &ty)?;
    let place = found.place;
    captured(alloc, table, walk, &ty, Formed { place, form, lead })
}

fn static_value(
    alloc: Global,
    walk: &mut Walk,
    table: &Table,
    found: FieldFound,
) -> Result<u32, WantOfMemory>
    requires { FieldBelow (length walk.old.nodes) found }
    ensures state { OnOk result ((ran (static_value table.now (field_of walk.old.nodes found) walk.old.env.bounds) (now walk.old)).state ≡ now walk.new) }
    ensures value { IfOk result (λ at. (ran (static_value table.now (field_of walk.old.nodes found) walk.old.env.bounds) (now walk.old)).has ≡ has walk.new.nodes at) }
    ensures within { IfOk result (λ at. at < length walk.new.nodes) }
    ensures grows { Grows walk.old.nodes walk.new.nodes }
{
    let form = ExprForm::StaticField {
        before: found.before,
        field: found.field,
        is_simple: found.is_simple,
    };
    read_field(alloc, walk, table, found, form)
}

fn object_value(
    alloc: Global,
    walk: &mut Walk,
    table: &Table,
    found: FieldFound,
) -> Result<u32, WantOfMemory>
    requires { FieldBelow (length walk.old.nodes) found }
    ensures state { OnOk result ((ran (object_value table.now (field_of walk.old.nodes found) walk.old.env.bounds) (now walk.old)).state ≡ now walk.new) }
    ensures value { IfOk result (λ at. (ran (object_value table.now (field_of walk.old.nodes found) walk.old.env.bounds) (now walk.old)).has ≡ has walk.new.nodes at) }
    ensures within { IfOk result (λ at. at < length walk.new.nodes) }
    ensures grows { Grows walk.old.nodes walk.new.nodes }
{
    let form = ExprForm::Field {
        of: found.of,
        field: found.field,
    };
    read_field(alloc, walk, table, found, form)
}

// A field that is a constant variable, named through operands.
#[tactic(auto, using(jc_typed::proofs::Growing::growing))]
fn known_field(
    alloc: Global,
    walk: &mut Walk,
    found: FieldFound,
    constant: &Constant,
    before: u32,
) -> Result<u32, WantOfMemory>
    requires found { FieldBelow (length walk.old.nodes) found }
    requires before { before < length walk.old.nodes }
    ensures state { OnOk result ((ran (fine (constant_at (field_of walk.old.nodes found) constant.now (operands_of walk.old.nodes before))) (now walk.old)).state ≡ now walk.new) }
    ensures value { IfOk result (λ at. (ran (fine (constant_at (field_of walk.old.nodes found) constant.now (operands_of walk.old.nodes before))) (now walk.old)).has ≡ has walk.new.nodes at) }
    ensures within { IfOk result (λ at. at < length walk.new.nodes) }
    ensures grows { Grows walk.old.nodes walk.new.nodes }
{
    let named = walk.nodes.push_names(NamesNode::Empty)?;
    let form = push_constant(alloc, &mut walk.nodes, constant, before, named)?;
    uncaptured(walk, found.place, found.ty, form)
}

#[tactic(auto, unfolding(jc_exprs_worlds::specs::Scenes::world_of))]
fn static_known(
    alloc: Global,
    walk: &mut Walk,
    scene: &Scene,
    found: FieldFound,
) -> Result<u32, WantOfMemory>
    requires { FieldBelow (length walk.old.nodes) found }
    ensures state { OnOk result ((ran (static_known scene.now.table.now (field_of walk.old.nodes found) walk.old.env.bounds (constant_field (world_of scene.now) found.field)) (now walk.old)).state ≡ now walk.new) }
    ensures value { IfOk result (λ at. (ran (static_known scene.now.table.now (field_of walk.old.nodes found) walk.old.env.bounds (constant_field (world_of scene.now) found.field)) (now walk.old)).has ≡ has walk.new.nodes at) }
    ensures within { IfOk result (λ at. at < length walk.new.nodes) }
    ensures grows { Grows walk.old.nodes walk.new.nodes }
{
    match constant_field(scene, found.field) {
        Some(constant) => known_field(alloc, walk, found, constant, found.before),
        None => static_value(alloc, walk, scene.table, found),
    }
}

// A constant that its field's simple name alone names.
#[tactic(auto, using(jc_typed::proofs::Growing::growing, crate::proofs::Lying::lying))]
fn known_simply(
    alloc: Global,
    walk: &mut Walk,
    found: FieldFound,
    constant: &Constant,
) -> Result<u32, WantOfMemory>
    requires { FieldBelow (length walk.old.nodes) found }
    ensures state { OnOk result ((ran (fine (constant_at (field_of walk.old.nodes found) constant.now NoOperands)) (now walk.old)).state ≡ now walk.new) }
    ensures value { IfOk result (λ at. (ran (fine (constant_at (field_of walk.old.nodes found) constant.now NoOperands)) (now walk.old)).has ≡ has walk.new.nodes at) }
    ensures within { IfOk result (λ at. at < length walk.new.nodes) }
    ensures grows { Grows walk.old.nodes walk.new.nodes }
{
    let before = walk.nodes.push_operands(ListNode::Empty)?;
    known_field(alloc, walk, found, constant, before)
}

// A constant behind the read of its field.
#[tactic(auto, using(jc_typed::proofs::Growing::growing, crate::proofs::Lying::lying))]
fn known_behind(
    alloc: Global,
    walk: &mut Walk,
    found: FieldFound,
    constant: &Constant,
    read: Part,
) -> Result<u32, WantOfMemory>
    requires found { FieldBelow (length walk.old.nodes) found }
    requires read { IsPart walk.old.nodes read }
    ensures state { OnOk result ((ran (fine (constant_at (field_of walk.old.nodes found) constant.now (one_operand (plain (known walk.old.nodes read.at))))) (now walk.old)).state ≡ now walk.new) }
    ensures value { IfOk result (λ at. (ran (fine (constant_at (field_of walk.old.nodes found) constant.now (one_operand (plain (known walk.old.nodes read.at))))) (now walk.old)).has ≡ has walk.new.nodes at) }
    ensures within { IfOk result (λ at. at < length walk.new.nodes) }
    ensures grows { Grows walk.old.nodes walk.new.nodes }
{
    let before = push_one_operand(&mut walk.nodes, read.at)?;
    known_field(alloc, walk, found, constant, before)
}

// A constant that is named through an object.
#[tactic(auto, using(jc_typed::proofs::Growing::growing, crate::proofs::Lying::lying))]
fn known_of_object(
    alloc: Global,
    walk: &mut Walk,
    table: &Table,
    found: FieldFound,
    constant: &Constant,
) -> Result<u32, WantOfMemory>
    requires { FieldBelow (length walk.old.nodes) found }
    ensures state { OnOk result ((ran (onward (object_value table.now (field_of walk.old.nodes found) walk.old.env.bounds) (λ t. fine (constant_at (field_of walk.old.nodes found) constant.now (one_operand (plain t))))) (now walk.old)).state ≡ now walk.new) }
    ensures value { IfOk result (λ at. (ran (onward (object_value table.now (field_of walk.old.nodes found) walk.old.env.bounds) (λ t. fine (constant_at (field_of walk.old.nodes found) constant.now (one_operand (plain t))))) (now walk.old)).has ≡ has walk.new.nodes at) }
    ensures within { IfOk result (λ at. at < length walk.new.nodes) }
    ensures grows { Grows walk.old.nodes walk.new.nodes }
{
    let at = object_value(alloc, walk, table, found)?;
    match part(&walk.nodes, at) {
        None => Ok(at),
        Some(read) => known_behind(alloc, walk, found, constant, read),
    }
}

#[tactic(auto, unfolding(jc_exprs_worlds::specs::Scenes::world_of))]
fn object_known(
    alloc: Global,
    walk: &mut Walk,
    scene: &Scene,
    found: FieldFound,
) -> Result<u32, WantOfMemory>
    requires { FieldBelow (length walk.old.nodes) found }
    ensures state { OnOk result ((ran (object_known scene.now.table.now (field_of walk.old.nodes found) walk.old.env.bounds found.is_simple (constant_field (world_of scene.now) found.field)) (now walk.old)).state ≡ now walk.new) }
    ensures value { IfOk result (λ at. (ran (object_known scene.now.table.now (field_of walk.old.nodes found) walk.old.env.bounds found.is_simple (constant_field (world_of scene.now) found.field)) (now walk.old)).has ≡ has walk.new.nodes at) }
    ensures within { IfOk result (λ at. at < length walk.new.nodes) }
    ensures grows { Grows walk.old.nodes walk.new.nodes }
{
    match constant_field(scene, found.field) {
        Some(constant) if found.is_simple => known_simply(alloc, walk, found, constant),
        Some(constant) => known_of_object(alloc, walk, scene.table, found, constant),
        None => object_value(alloc, walk, scene.table, found),
    }
}

// A field that isn't named before its declaration.
fn declared_value(
    alloc: Global,
    walk: &mut Walk,
    scene: &Scene,
    found: FieldFound,
) -> Result<u32, WantOfMemory>
    requires { FieldBelow (length walk.old.nodes) found }
    ensures state { OnOk result ((ran (if is_static_field scene.now.table.now found.field then static_known scene.now.table.now (field_of walk.old.nodes found) walk.old.env.bounds (constant_field (world_of scene.now) found.field) else object_known scene.now.table.now (field_of walk.old.nodes found) walk.old.env.bounds found.is_simple (constant_field (world_of scene.now) found.field)) (now walk.old)).state ≡ now walk.new) }
    ensures value { IfOk result (λ at. (ran (if is_static_field scene.now.table.now found.field then static_known scene.now.table.now (field_of walk.old.nodes found) walk.old.env.bounds (constant_field (world_of scene.now) found.field) else object_known scene.now.table.now (field_of walk.old.nodes found) walk.old.env.bounds found.is_simple (constant_field (world_of scene.now) found.field)) (now walk.old)).has ≡ has walk.new.nodes at) }
    ensures within { IfOk result (λ at. at < length walk.new.nodes) }
    ensures grows { Grows walk.old.nodes walk.new.nodes }
{
    if is_static_field(scene.table, found.field) {
        return static_known(alloc, walk, scene, found);
    }
    object_known(alloc, walk, scene, found)
}

fn field_value(
    alloc: Global,
    walk: &mut Walk,
    scene: &Scene,
    found: FieldFound,
) -> Result<u32, WantOfMemory>
    requires { FieldBelow (length walk.old.nodes) found }
    ensures state { OnOk result ((ran (field_value (world_of scene.now) (field_of walk.old.nodes found) walk.old.env.bounds) (now walk.old)).state ≡ now walk.new) }
    ensures value { IfOk result (λ at. (ran (field_value (world_of scene.now) (field_of walk.old.nodes found) walk.old.env.bounds) (now walk.old)).has ≡ has walk.new.nodes at) }
    ensures within { IfOk result (λ at. at < length walk.new.nodes) }
    ensures grows { Grows walk.old.nodes walk.new.nodes }
{
    if is_forward(scene, found) {
        return broken(walk, 626, found.place);
    }
    declared_value(alloc, walk, scene, found)
}

#[tactic(auto, using(jc_typed::proofs::Growing::growing))]
fn element_value(
    alloc: Global,
    walk: &mut Walk,
    table: &Table,
    place: Place,
    ty: u32,
    form: ExprForm,
) -> Result<u32, WantOfMemory>
    requires ty { ty < length walk.old.nodes }
    requires form { BelowForm (length walk.old.nodes) form }
    ensures state { OnOk result ((ran (captured table.now place (type_of walk.old.nodes ty) (form_over (parts walk.old.nodes) form) []) (now walk.old)).state ≡ now walk.new) }
    ensures value { IfOk result (λ at. (ran (captured table.now place (type_of walk.old.nodes ty) (form_over (parts walk.old.nodes) form) []) (now walk.old)).has ≡ has walk.new.nodes at) }
    ensures within { IfOk result (λ at. at < length walk.new.nodes) }
    ensures grows { Grows walk.old.nodes walk.new.nodes }
{
    same_form();
    form_below();
    let lead = walk.nodes.push_steps(StepsNode::Empty)?;
    captured_at(alloc, table, walk, ty, Formed { place, form, lead })
}

#[tactic(auto, using(jc_typed::proofs::Growing::growing))]
fn length_value(walk: &mut Walk, place: Place, array: u32) -> Result<u32, WantOfMemory>
    requires { array < length walk.old.nodes }
    ensures state { OnOk result ((ran (fine (node place (Prim Int) (Length (operand_of walk.old.nodes array)))) (now walk.old)).state ≡ now walk.new) }
    ensures value { IfOk result (λ at. (ran (fine (node place (Prim Int) (Length (operand_of walk.old.nodes array)))) (now walk.old)).has ≡ has walk.new.nodes at) }
    ensures within { IfOk result (λ at. at < length walk.new.nodes) }
    ensures grows { Grows walk.old.nodes walk.new.nodes }
{
    let ty = walk.nodes.push_type(Ty::Prim(Primitive::Int))?;
    uncaptured(walk, place, ty, ExprForm::Length { array })
}

/// The value of what is found: a constant where it is a constant variable, and otherwise what is read, of a type after capture. 626 at a field that is named simply in an initialiser before its
/// declaration.
#[tactic(auto, unfolding(jc_exprs_worlds::specs::Scenes::world_of, jc_exprs_nodes_spec::specs::Told::ran, jc_exprs_parts_spec::specs::Names::value_of))]
pub fn value_of(
    alloc: Global,
    walk: &mut Walk,
    scene: &Scene,
    located: LocatedAt,
) -> Result<u32, WantOfMemory>
    requires { LocatedBelow (length walk.old.nodes) (Some located) }
    ensures state { OnOk result ((ran (value_of (world_of scene.now) (located_of walk.old.nodes located.entry)) (now walk.old)).state ≡ now walk.new) }
    ensures value { IfOk result (λ at. (ran (value_of (world_of scene.now) (located_of walk.old.nodes located.entry)) (now walk.old)).has ≡ has walk.new.nodes at) }
    ensures within { IfOk result (λ at. at < length walk.new.nodes) }
    ensures grows { Grows walk.old.nodes walk.new.nodes }
{
    match located {
        LocatedAt::Local { place, local } => value_of_local(alloc, walk, scene, place, local),
        LocatedAt::Field(found) => field_value(alloc, walk, scene, found),
        LocatedAt::Element {
            place,
            array,
            index,
            ty,
        } => {
            let form = ExprForm::Element { array, index };
            element_value(alloc, walk, scene.table, place, ty, form)
        }
        LocatedAt::Length { place, array } => length_value(walk, place, array),
    }
}
