//! Fields that a simple name finds: of the class of the place, or static ones of a class round it (JLS 6.5.6.1).
ghost use Rattle.std.specs.Prelude.{◌≡◌, length, IfOk, OnOk};
ghost use Rattle.jc_typed.specs.Parts.{Grows};
ghost use Rattle.jc_exprs_nodes_spec.specs.Told.{fine, provided, ran};
ghost use Rattle.jc_exprs_nodes.specs.Walks.{as_breaks, now};
ghost use Rattle.jc_exprs_parts_spec.specs.Names.{AtField, field_here, own_breaks, own_field};
ghost use Rattle.jc_exprs_worlds.specs.Scenes.{world_of};
ghost use Rattle.jc_exprs_located.specs.Locations.{LocatedBelow, has_located};

use jc_exprs_fields::is_static_field;
use jc_exprs_located::{LocatedAt, broken, instance_break, push_own_field, refused};
use jc_exprs_nodes::{Walk, refusal};
use jc_exprs_worlds::Scene;
use jc_rules::{Place, Refusal, WantOfMemory};
use jc_types::FieldId;
use std::alloc::Global;

// A field of the class of the place that isn't static wants an instance there; of a class round it there is none (611).
#[tactic(auto, unfolding(jc_exprs_worlds::specs::Scenes::world_of))]
fn own_break(scene: &Scene, place: Place, is_own: bool, field: FieldId) -> Option<Refusal>
    ensures { as_breaks result ≡ own_breaks (world_of scene.now) place is_own field }
{
    if is_static_field(scene.table, field) {
        return None;
    }
    if is_own {
        return instance_break(scene.here, place);
    }
    Some(refusal(611, place))
}

#[tactic(auto, using(jc_typed::proofs::Growing::growing, jc_exprs_nodes_spec::proofs::Runs::runs))]
fn own_field<'a>(
    alloc: Global,
    scene: &Scene<'a>,
    walk: &mut Walk,
    place: Place,
    field: FieldId,
) -> Result<Option<LocatedAt<'a>>, WantOfMemory>
    ensures state { OnOk result ((ran (fine (AtField (own_field (world_of scene.now) place field))) (now walk.old)).state ≡ now walk.new) }
    ensures value { IfOk result (λ l. (ran (fine (AtField (own_field (world_of scene.now) place field))) (now walk.old)).has ≡ has_located walk.new.nodes l) }
    ensures below { IfOk result (λ l. LocatedBelow (length walk.new.nodes) l) }
    ensures grows { Grows walk.old.nodes walk.new.nodes }
{
    let found = push_own_field(alloc, &mut walk.nodes, scene, place, field)?;
    Ok(Some(LocatedAt::Field(found)))
}

#[tactic(auto, using(jc_typed::proofs::Growing::growing))]
fn usable_field<'a>(
    alloc: Global,
    scene: &Scene<'a>,
    walk: &mut Walk,
    place: Place,
    is_own: bool,
    field: FieldId,
) -> Result<Option<LocatedAt<'a>>, WantOfMemory>
    ensures state { OnOk result ((ran (provided (own_breaks (world_of scene.now) place is_own field) (fine (AtField (own_field (world_of scene.now) place field)))) (now walk.old)).state ≡ now walk.new) }
    ensures value { IfOk result (λ l. (ran (provided (own_breaks (world_of scene.now) place is_own field) (fine (AtField (own_field (world_of scene.now) place field)))) (now walk.old)).has ≡ has_located walk.new.nodes l) }
    ensures below { IfOk result (λ l. LocatedBelow (length walk.new.nodes) l) }
    ensures grows { Grows walk.old.nodes walk.new.nodes }
{
    match own_break(scene, place, is_own, field) {
        Some(break_of) => Ok(refused(walk, break_of)),
        None => own_field(alloc, scene, walk, place, field),
    }
}

/// A field by its simple name: 622 where there are several, 611 or 620 where it wants an instance and there is none.
#[tactic(auto, using(jc_typed::proofs::Growing::growing))]
pub fn field_here<'a>(
    alloc: Global,
    scene: &Scene<'a>,
    walk: &mut Walk,
    place: Place,
    is_own: bool,
    fields: &[FieldId],
) -> Result<Option<LocatedAt<'a>>, WantOfMemory>
    ensures state { OnOk result ((ran (field_here (world_of scene.now) place is_own fields.now) (now walk.old)).state ≡ now walk.new) }
    ensures value { IfOk result (λ l. (ran (field_here (world_of scene.now) place is_own fields.now) (now walk.old)).has ≡ has_located walk.new.nodes l) }
    ensures below { IfOk result (λ l. LocatedBelow (length walk.new.nodes) l) }
    ensures grows { Grows walk.old.nodes walk.new.nodes }
{
    match fields {
        [] => Ok(broken(walk, 602, place)),
        [field] => usable_field(alloc, scene, walk, place, is_own, *field),
        [_, _, ..] => Ok(broken(walk, 622, place)),
    }
}
