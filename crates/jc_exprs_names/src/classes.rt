//! Static fields behind the name of a class (JLS 6.5.6.2, 15.11.1).
ghost use Rattle.std.specs.Prelude.{◌≡◌, ◌++◌, length, IfOk, OnOk};
ghost use Rattle.jc_typed.specs.Parts.{Grows};
ghost use Rattle.jc_exprs_nodes_spec.specs.Told.{fine, provided, ran, unless};
ghost use Rattle.jc_exprs_nodes.specs.Walks.{as_breaks, now};
ghost use Rattle.jc_exprs_parts_spec.specs.Fields.{is_static_field, may_name_field};
ghost use Rattle.jc_exprs_parts_spec.specs.Names.{AtField, class_field, field_behind};
ghost use Rattle.jc_exprs_parts_spec.specs.Worlds.{named_class};
ghost use Rattle.jc_exprs_worlds.specs.Scenes.{world_of};
ghost use Rattle.jc_exprs_located.specs.Locations.{LocatedBelow, has_located};

use jc_exprs_fields::{is_static_field, may_name_field};
use jc_exprs_located::{LocatedAt, both_hold, broken, push_class_field, refused_both};
use jc_exprs_nodes::{Walk, refusal};
use jc_exprs_worlds::{Scene, named_class};
use jc_rules::{Place, Refusal, WantOfMemory};
use jc_types::{ClassId, FieldId, Table, Ty};
use std::alloc::Global;

fn closed_break(scene: &Scene, place: Place, ty: &Ty, field: FieldId) -> Option<Refusal>
    ensures { as_breaks result ≡ unless (may_name_field (world_of scene.now) ty.now field) 618 place }
{
    if may_name_field(scene, ty, field) {
        return None;
    }
    Some(refusal(618, place))
}

fn object_break(table: &Table, place: Place, field: FieldId) -> Option<Refusal>
    ensures { as_breaks result ≡ unless (is_static_field table.now field) 611 place }
{
    if is_static_field(table, field) {
        return None;
    }
    Some(refusal(611, place))
}

#[tactic(auto, using(jc_typed::proofs::Growing::growing, jc_exprs_nodes_spec::proofs::Runs::runs))]
fn class_field<'a>(
    alloc: Global,
    scene: &Scene<'a>,
    walk: &mut Walk,
    place: Place,
    field: FieldId,
) -> Result<Option<LocatedAt<'a>>, WantOfMemory>
    ensures state { OnOk result ((ran (fine (AtField (class_field (world_of scene.now) place field))) (now walk.old)).state ≡ now walk.new) }
    ensures value { IfOk result (λ l. (ran (fine (AtField (class_field (world_of scene.now) place field))) (now walk.old)).has ≡ has_located walk.new.nodes l) }
    ensures below { IfOk result (λ l. LocatedBelow (length walk.new.nodes) l) }
    ensures grows { Grows walk.old.nodes walk.new.nodes }
{
    let found = push_class_field(alloc, &mut walk.nodes, scene, place, field)?;
    Ok(Some(LocatedAt::Field(found)))
}

#[tactic(auto, using(jc_typed::proofs::Growing::growing))]
fn usable_field<'a>(
    alloc: Global,
    scene: &Scene<'a>,
    walk: &mut Walk,
    place: Place,
    class: ClassId,
    field: FieldId,
) -> Result<Option<LocatedAt<'a>>, WantOfMemory>
    ensures state { OnOk result ((ran (provided (unless (may_name_field (world_of scene.now) (named_class scene.now.table.now class) field) 618 place ++ unless (is_static_field scene.now.table.now field) 611 place) (fine (AtField (class_field (world_of scene.now) place field)))) (now walk.old)).state ≡ now walk.new) }
    ensures value { IfOk result (λ l. (ran (provided (unless (may_name_field (world_of scene.now) (named_class scene.now.table.now class) field) 618 place ++ unless (is_static_field scene.now.table.now field) 611 place) (fine (AtField (class_field (world_of scene.now) place field)))) (now walk.old)).has ≡ has_located walk.new.nodes l) }
    ensures below { IfOk result (λ l. LocatedBelow (length walk.new.nodes) l) }
    ensures grows { Grows walk.old.nodes walk.new.nodes }
{
    let ty = named_class(alloc, scene.table, class);
    let is_closed = closed_break(scene, place, &ty, field);
    let of_object = object_break(scene.table, place, field);
    if both_hold(&is_closed, &of_object) {
        return class_field(alloc, scene, walk, place, field);
    }
    Ok(refused_both(walk, is_closed, of_object))
}

/// A field behind the name of a class: 603 where there is none, 622 where there are several, 618 where it may not be named there, 611 where it isn't static.
#[tactic(auto, using(jc_typed::proofs::Growing::growing), unfolding(jc_exprs_worlds::specs::Scenes::world_of))]
pub fn field_behind<'a>(
    alloc: Global,
    scene: &Scene<'a>,
    walk: &mut Walk,
    place: Place,
    class: ClassId,
    fields: &[FieldId],
) -> Result<Option<LocatedAt<'a>>, WantOfMemory>
    ensures state { OnOk result ((ran (field_behind (world_of scene.now) place class fields.now) (now walk.old)).state ≡ now walk.new) }
    ensures value { IfOk result (λ l. (ran (field_behind (world_of scene.now) place class fields.now) (now walk.old)).has ≡ has_located walk.new.nodes l) }
    ensures below { IfOk result (λ l. LocatedBelow (length walk.new.nodes) l) }
    ensures grows { Grows walk.old.nodes walk.new.nodes }
{
    match fields {
        [] => Ok(broken(walk, 603, place)),
        [field] => usable_field(alloc, scene, walk, place, class, *field),
        [_, _, ..] => Ok(broken(walk, 622, place)),
    }
}
