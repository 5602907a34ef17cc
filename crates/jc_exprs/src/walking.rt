//! What the layers above ask of the walk.
ghost use Rattle.std.specs.Prelude.{◌<◌, ◌≡◌, IfOk, length, OnOk};
ghost use Rattle.jc_members.specs.Named.{IsMethodIndex};
ghost use Rattle.jc_typed.specs.Parts.{Grows, type_of};
ghost use Rattle.jc_exprs_nodes_spec.specs.Told.{ran};
ghost use Rattle.jc_exprs_nodes.specs.Walks.{has, now};
ghost use Rattle.jc_exprs_gathering.specs.Gathered.{has_operand};
ghost use Rattle.jc_exprs_spec.specs.Typing.{constructed, effect, initialised};
ghost use Rattle.jc_exprs_calls.specs.Creating.{has_stmt_form, StmtBelow};
ghost use Rattle.jc_exprs_worlds.specs.Scenes.{IsWorldly, world_of};

use crate::calls::{Asking, asked_before, called_on, called_super, invoked};
use crate::initialisers::given;
use crate::lists::typed_all;
use crate::typing::typed;
use jc_exprs_call_gates::constructed_or;
use jc_exprs_calls::Methods;
use jc_exprs_nodes::Walk;
use jc_exprs_starts::start_of;
use jc_exprs_worlds::at;
use jc_rules::{Place, WantOfMemory};
use jc_tree::{Expr, Init};
use jc_typed::StmtForm;
use jc_types::Ty;
use std::alloc::Global;

/// An expression that is a statement, which may be a call without a result (JLS 14.8).
#[tactic(auto, using(jc_typed::proofs::Growing::growing, jc_exprs_nodes_spec::proofs::Runs::runs, jc_exprs_nodes::proofs::Staying::staying, jc_exprs_forms::proofs::ByForms::by_effect, crate::proofs::Through::rests))]
pub fn effect(
    alloc: Global,
    methods: &Methods,
    walk: &mut Walk,
    e: &Expr,
) -> Result<u32, WantOfMemory>
    requires index { IsMethodIndex methods.now.scene.now.table.now methods.now.index.now }
    requires scene { IsWorldly methods.now.scene.now }
    ensures state { OnOk result ((ran (effect (world_of methods.now.scene.now) e.now) (now walk.old)).state ≡ now walk.new) }
    ensures value { IfOk result (λ at. (ran (effect (world_of methods.now.scene.now) e.now) (now walk.old)).has ≡ has walk.new.nodes at) }
    ensures within { IfOk result (λ at. at < length walk.new.nodes) }
    ensures grows { Grows walk.old.nodes walk.new.nodes }
{
    let scene = methods.scene;
    match e {
        Expr::Call {
            of,
            type_args,
            name,
            actuals,
        } => {
            let before = asked_before(alloc, methods, walk, of.get())?;
            let asking = Asking {
                place: start_of(scene, of.get()),
                name: name.get(),
                explicit: type_args.get().slice(),
                wanted: None,
            };
            called_on(alloc, methods, walk, actuals.get().slice(), &asking, before)
        }
        Expr::SuperCall {
            at: n,
            type_args,
            name,
            actuals,
        } => {
            let asking = Asking {
                place: at(scene, *n),
                name: name.get(),
                explicit: type_args.get().slice(),
                wanted: None,
            };
            called_super(alloc, methods, walk, actuals.get().slice(), *n, &asking)
        }
        Expr::Invoke { name, actuals } => {
            invoked(alloc, methods, walk, actuals.get().slice(), name, None)
        }
        _ => typed(alloc, methods, walk, None, e),
    }
}

/// The initialiser of a variable of a type, by its place in the arena (JLS 8.3, 14.4): its value as an operand.
#[tactic(auto, using(jc_typed::proofs::Growing::growing, jc_exprs_nodes_spec::proofs::Runs::runs, jc_exprs_nodes::proofs::Staying::staying, crate::proofs::Wholes::wholes))]
pub fn initialised(
    alloc: Global,
    methods: &Methods,
    walk: &mut Walk,
    ty: u32,
    init: &Init,
) -> Result<u32, WantOfMemory>
    requires index { IsMethodIndex methods.now.scene.now.table.now methods.now.index.now }
    requires scene { IsWorldly methods.now.scene.now }
    requires ty { ty < length walk.old.nodes }
    ensures state { OnOk result ((ran (initialised (world_of methods.now.scene.now) (type_of walk.old.nodes ty) init.now) (now walk.old)).state ≡ now walk.new) }
    ensures value { IfOk result (λ at. (ran (initialised (world_of methods.now.scene.now) (type_of walk.old.nodes ty) init.now) (now walk.old)).has ≡ has_operand walk.new.nodes at) }
    ensures within { IfOk result (λ at. at < length walk.new.nodes) }
    ensures grows { Grows walk.old.nodes walk.new.nodes }
{
    given(alloc, methods, walk, init, Some(ty))
}

/// The call of another constructor, of the class of a type (JLS 8.8.7.1): the form of its statement; none where a rule is broken.
#[tactic(auto, using(jc_typed::proofs::Growing::growing, jc_exprs_nodes_spec::proofs::Runs::runs, jc_exprs_nodes::proofs::Staying::staying, crate::proofs::Wholes::wholes))]
pub fn constructed(
    alloc: Global,
    methods: &Methods,
    walk: &mut Walk,
    place: Place,
    ty: &Ty,
    args: &[Expr],
) -> Result<Option<StmtForm>, WantOfMemory>
    requires index { IsMethodIndex methods.now.scene.now.table.now methods.now.index.now }
    requires scene { IsWorldly methods.now.scene.now }
    ensures state { OnOk result ((ran (constructed (world_of methods.now.scene.now) place ty.now args.now) (now walk.old)).state ≡ now walk.new) }
    ensures value { IfOk result (λ form. (ran (constructed (world_of methods.now.scene.now) place ty.now args.now) (now walk.old)).has ≡ has_stmt_form walk.new.nodes form) }
    ensures within { IfOk result (λ form. StmtBelow (length walk.new.nodes) form) }
    ensures grows { Grows walk.old.nodes walk.new.nodes }
{
    let args = typed_all(alloc, methods, walk, args)?;
    constructed_or(alloc, methods.scene, walk, place, ty, args.slice())
}
