//! Which of the classes round a place an unqualified call means (JLS 15.12.1).
ghost use Rattle.std.specs.Prelude.{◌≡◌, IfOk, drop};
ghost use Rattle.jc_members.specs.Named.{IsMethodIndex};
ghost use Rattle.jc_overriding.specs.Overriding.{members};
ghost use Rattle.jc_overriding.specs.Viewing.{own_type};
ghost use Rattle.jc_typed.specs.declared.nodes.Node.{Node};
ghost use Rattle.std.specs.Prelude.{List};
ghost use Rattle.jc_exprs_parts_spec.specs.Worlds.{round, this_type};
ghost use Rattle.jc_exprs_worlds.specs.Scenes.{world_of};
ghost use Rattle.jc_exprs_spec.specs.Creations.{is_empty};
ghost use Rattle.jc_exprs_calls.specs.Calling.{first_with, outer_if, receiver_here};
ghost use Rattle.jc_exprs_calls.specs.Placing.{AreReceivers, has_receiver};

use crate::asking::Methods;
use crate::receivers::ReceiverAt;
use jc_exprs_worlds::{round, this_type};
use jc_members::{members, own_type};
use jc_rules::{Place, Text, WantOfMemory};
use jc_types::{ClassId, Ty};
use std::alloc::Global;

// Whether a type has no method of a name.
fn has_none(alloc: Global, methods: &Methods, ty: &Ty, name: &Text) -> Result<bool, WantOfMemory>
    requires { IsMethodIndex methods.now.scene.now.table.now methods.now.index.now }
    ensures { IfOk result (λ r. is_empty (members methods.now.scene.now.table.now ty.now name.now) ≡ r) }
{
    let found = members(alloc, methods.scene.table, methods.index, ty, name)?;
    match found.slice() {
        [] => Ok(true),
        [_, ..] => Ok(false),
    }
}

// The first of these classes that has a method of a name.
#[tactic(auto, using(crate::proofs::Finds::firsts))]
fn first_with(
    alloc: Global,
    methods: &Methods,
    name: &Text,
    classes: &[ClassId],
) -> Result<Option<ClassId>, WantOfMemory>
    requires { IsMethodIndex methods.now.scene.now.table.now methods.now.index.now }
    ensures { IfOk result (λ k. k ≡ first_with methods.now.scene.now.table.now name.now classes.now) }
{
    let mut rest = classes;
    while let [class, more @ ..] = rest {
        let ty = own_type(alloc, methods.scene.table, *class)?;
        if !has_none(alloc, methods, &ty, name)? {
            return Ok(Some(*class));
        }
        rest = more;
    }
    Ok(None)
}

// All classes but the first.
fn behind_first(classes: &[ClassId]) -> &[ClassId]
    ensures { result.now ≡ drop 1 classes.now }
{
    match classes {
        [] => classes,
        [_, more @ ..] => more,
    }
}

// The first of the classes round the place, but for its own, that has a method of a name.
#[tactic(auto, unfolding(jc_exprs_worlds::specs::Scenes::world_of))]
fn outer_with(
    alloc: Global,
    methods: &Methods,
    name: &Text,
) -> Result<Option<ClassId>, WantOfMemory>
    requires { IsMethodIndex methods.now.scene.now.table.now methods.now.index.now }
    ensures { IfOk result (λ k. k ≡ first_with methods.now.scene.now.table.now name.now (drop 1 (round (world_of methods.now.scene.now)))) }
{
    let classes = round(alloc, methods.scene)?;
    first_with(alloc, methods, name, behind_first(classes.slice()))
}

// A class round the place, as what stands before a call.
fn on_outer(class: Option<ClassId>) -> Option<ReceiverAt>
    ensures value { (ns : List Node) → outer_if class ≡ has_receiver ns result }
    ensures there { (ns : List Node) → AreReceivers ns result }
{
    match class {
        None => None,
        Some(class) => Some(ReceiverAt::OnOuter(class)),
    }
}

/// What stands before an unqualified call of a method of a name: the instance of the place where its class has one, else the first class round it that has.
#[tactic(auto, using(crate::proofs::Finds::firsts), unfolding(jc_exprs_worlds::specs::Scenes::world_of))]
pub fn receiver_here(
    alloc: Global,
    methods: &Methods,
    place: Place,
    name: &Text,
) -> Result<Option<ReceiverAt>, WantOfMemory>
    requires { IsMethodIndex methods.now.scene.now.table.now methods.now.index.now }
    ensures value { IfOk result (λ r. (ns : List Node) → receiver_here (world_of methods.now.scene.now) place name.now ≡ has_receiver ns r) }
    ensures there { IfOk result (λ r. (ns : List Node) → AreReceivers ns r) }
{
    let ty = this_type(alloc, methods.scene)?;
    if has_none(alloc, methods, &ty, name)? {
        return Ok(on_outer(outer_with(alloc, methods, name)?));
    }
    Ok(Some(ReceiverAt::OnThis(place)))
}
