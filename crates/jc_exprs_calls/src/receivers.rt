//! What stands before a call (JLS 15.12.1).
ghost use Rattle.std.specs.Prelude.{◌≡◌, ◌||◌, ℕ, IfOk, List};
ghost use Rattle.jc_overriding.specs.Overriding.{access_of};
ghost use Rattle.jc_typed.specs.declared.nodes.Node.{Node};
ghost use Rattle.jc_exprs_parts_spec.specs.Fields.{is_private};
ghost use Rattle.jc_exprs_parts_spec.specs.Worlds.{World};
ghost use Rattle.jc_exprs_spec.specs.Calls.{call_kind, is_super, kind_of, methods_by, methods_of, searched};
ghost use Rattle.jc_exprs_worlds.specs.Scenes.{world_of};
ghost use Rattle.jc_exprs_calls.specs.Receivers.{IsReceiver, receiver_of};

use jc_exprs_fields::is_private;
use jc_exprs_settling::SettledPart;
use jc_exprs_worlds::{Scene, named_class, this_type};
use jc_members::{access_of, is_static, own_type};
use jc_rules::{Place, WantOfMemory};
use jc_typed::{CallKind, Nodes};
use jc_types::{ClassId, MethodId, Table, Ty, copy_type};
use std::alloc::Global;

/// What stands before a call: a value whose settled type has the method; the instance of the place, of its own class or through `super`, whose type stands in the arena; or a class, which
/// is named or is round the place.
#[derive(Clone, Copy, Debug)]
pub enum ReceiverAt {
    OnValue(SettledPart),
    OnThis(Place),
    OnSuper { place: Place, ty: u32 },
    OnClass(ClassId),
    OnOuter(ClassId),
}

/// Whether a method is called through `super`.
pub fn is_super(receiver: ReceiverAt) -> bool
    ensures { (ns : List Node) → is_super (receiver_of ns receiver) ≡ result }
{
    match receiver {
        ReceiverAt::OnSuper { .. } => true,
        _ => false,
    }
}

/// The type whose members are asked.
#[tactic(auto, unfolding(jc_exprs_worlds::specs::Scenes::world_of))]
pub fn searched(
    alloc: Global,
    scene: &Scene,
    nodes: &Nodes,
    receiver: ReceiverAt,
) -> Result<Ty, WantOfMemory>
    requires { IsReceiver nodes.now receiver }
    ensures { IfOk result (λ t. t ≡ searched (world_of scene.now) (receiver_of nodes.now receiver)) }
{
    match receiver {
        ReceiverAt::OnValue(settled) => copy_type(alloc, nodes.ty(settled.ty)),
        ReceiverAt::OnThis(_) => this_type(alloc, scene),
        ReceiverAt::OnSuper { ty, .. } => copy_type(alloc, nodes.ty(ty)),
        ReceiverAt::OnClass(class) => Ok(named_class(alloc, scene.table, class)),
        ReceiverAt::OnOuter(class) => own_type(alloc, scene.table, class),
    }
}

/// Whether the methods of a type whose members are asked are those of bounds, and so none of them is private (JLS 4.4, 4.9).
pub fn is_by_bounds(receiver: ReceiverAt) -> bool
    ensures { (W : World) (ns : List Node) (n : List ℕ) → methods_of W (receiver_of ns receiver) n ≡ methods_by W result (searched W (receiver_of ns receiver)) n }
{
    match receiver {
        ReceiverAt::OnValue(settled) => settled.by_bounds,
        _ => false,
    }
}

fn kind_of(is_static: bool, is_direct: bool) -> CallKind
    ensures { result ≡ kind_of is_static is_direct }
{
    if is_static {
        return CallKind::Static;
    }
    if is_direct {
        return CallKind::Direct;
    }
    CallKind::Virtual
}

// Whether a call finds the body of the method itself.
fn is_direct(table: &Table, receiver: ReceiverAt, method: MethodId) -> bool
    ensures { (ns : List Node) → (is_super (receiver_of ns receiver) || is_private (access_of table.now method)) ≡ result }
{
    is_super(receiver) || is_private(access_of(table, method))
}

/// How a call finds the body that runs.
pub fn call_kind(table: &Table, receiver: ReceiverAt, method: MethodId) -> CallKind
    ensures { (ns : List Node) → call_kind table.now (receiver_of ns receiver) method ≡ result }
{
    kind_of(is_static(table, method), is_direct(table, receiver, method))
}
