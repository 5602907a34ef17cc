//! Rules that a call of a chosen method may break: an instance method wants an instance (JLS 15.12.3).
ghost use Rattle.std.specs.Prelude.{◌≡◌, List, false};
ghost use Rattle.jc_typed.specs.declared.nodes.Node.{Node};
ghost use Rattle.jc_exprs_nodes.specs.Walks.{as_breaks};
ghost use Rattle.jc_exprs_parts_spec.specs.Names.{instance_breaks};
ghost use Rattle.jc_exprs_spec.specs.Calls.{receiver_breaks, super_breaks};
ghost use Rattle.jc_exprs_worlds.specs.Scenes.{here_of, world_of};
ghost use Rattle.jc_exprs_calls.specs.Receivers.{receiver_of};

use crate::receivers::ReceiverAt;
use jc_exprs_nodes::refusal;
use jc_exprs_worlds::{Here, Scene};
use jc_rules::{Place, Refusal};

/// 611 in a static place, and 620 before there is an instance.
pub fn instance_break(here: Here, place: Place) -> Option<Refusal>
    ensures { instance_breaks (here_of here) place ≡ as_breaks result }
{
    match here {
        Here::Instance => None,
        Here::Static => Some(refusal(611, place)),
        Here::Early => Some(refusal(620, place)),
    }
}

// What an instance method breaks.
#[tactic(auto, unfolding(jc_exprs_worlds::specs::Scenes::world_of))]
fn object_break(scene: &Scene, place: Place, receiver: ReceiverAt) -> Option<Refusal>
    ensures { (ns : List Node) → receiver_breaks (world_of scene.now) place (receiver_of ns receiver) false ≡ as_breaks result }
{
    match receiver {
        ReceiverAt::OnValue(_) => None,
        ReceiverAt::OnThis(_) => instance_break(scene.here, place),
        ReceiverAt::OnSuper { .. } => None,
        ReceiverAt::OnClass(_) => Some(refusal(611, place)),
        ReceiverAt::OnOuter(_) => Some(refusal(611, place)),
    }
}

/// What a method, static or not, breaks behind a receiver: one that isn't static is called through a class (611), in a static place (611) or before there is an instance (620).
pub fn receiver_break(
    scene: &Scene,
    place: Place,
    receiver: ReceiverAt,
    is_static: bool,
) -> Option<Refusal>
    ensures { (ns : List Node) → receiver_breaks (world_of scene.now) place (receiver_of ns receiver) is_static ≡ as_breaks result }
{
    if is_static {
        return None;
    }
    object_break(scene, place, receiver)
}

/// 621: an abstract method through `super`.
pub fn super_break(place: Place, is_super: bool, is_abstract: bool) -> Option<Refusal>
    ensures { super_breaks place is_super is_abstract ≡ as_breaks result }
{
    if is_super && is_abstract {
        return Some(refusal(621, place));
    }
    None
}
