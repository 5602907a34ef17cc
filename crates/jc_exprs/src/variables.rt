//! The variables that expressions are, and their parts where these are asked by the typing of their expression (JLS 6.5.6, 15.11, 15.13, 15.26).
ghost use Rattle.std.specs.Prelude.{◌<◌, ◌≡◌, IfOk, length, OnOk};
ghost use Rattle.jc_members.specs.Named.{IsMethodIndex};
ghost use Rattle.jc_typed.specs.Parts.{Grows};
ghost use Rattle.jc_exprs_nodes_spec.specs.Told.{onward, ran};
ghost use Rattle.jc_exprs_nodes.specs.Walks.{has, now};
ghost use Rattle.jc_exprs_worlds.specs.Scenes.{IsWorldly, world_of};
ghost use Rattle.jc_exprs_forms.specs.Forms.{located, meant, starts, targeted};
ghost use Rattle.jc_exprs_parts_spec.specs.Names.{located_behind};
ghost use Rattle.jc_exprs_located.specs.Locations.{has_located, LocatedBelow};
ghost use Rattle.jc_exprs_targets.specs.Targets.{has_target, TargetBelow};
ghost use Rattle.jc_exprs.specs.Rests.{element_behind};

use crate::meanings::meant;
use crate::typing::typed;
use jc_exprs_calls::Methods;
use jc_exprs_located::{LocatedAt, super_member};
use jc_exprs_names::{element_or, located_behind_or, no_variable, simple_located, target_or};
use jc_exprs_nodes::Walk;
use jc_exprs_starts::start_of;
use jc_exprs_targets::TargetAt;
use jc_exprs_worlds::at;
use jc_rules::WantOfMemory;
use jc_tree::{Expr, Ident};
use std::alloc::Global;

/// What a name behind a point finds.
#[cycle(expressions)]
#[tactic(auto, using(jc_typed::proofs::Growing::growing, jc_exprs_nodes_spec::proofs::Runs::runs, jc_exprs_nodes::proofs::Staying::staying))]
pub fn field_located<'a>(
    alloc: Global,
    methods: &Methods<'a>,
    walk: &mut Walk,
    of: &Expr,
    name: &Ident,
) -> Result<Option<LocatedAt<'a>>, WantOfMemory>
    requires index { IsMethodIndex methods.now.scene.now.table.now methods.now.index.now }
    requires scene { IsWorldly methods.now.scene.now }
    ensures state { OnOk result ((ran (onward (meant (world_of methods.now.scene.now) of.now) (located_behind (world_of methods.now.scene.now) (starts (world_of methods.now.scene.now) of.now) name.now.text)) (now walk.old)).state ≡ now walk.new) }
    ensures value { IfOk result (λ l. (ran (onward (meant (world_of methods.now.scene.now) of.now) (located_behind (world_of methods.now.scene.now) (starts (world_of methods.now.scene.now) of.now) name.now.text)) (now walk.old)).has ≡ has_located walk.new.nodes l) }
    ensures below { IfOk result (λ l. LocatedBelow (length walk.new.nodes) l) }
    ensures grows { Grows walk.old.nodes walk.new.nodes }
{
    let scene = methods.scene;
    let before = meant(alloc, methods, walk, of)?;
    let place = start_of(scene, of);
    located_behind_or(alloc, scene, walk, place, name.text.str(), before)
}

/// An element of an array that is typed already.
#[cycle(expressions)]
#[tactic(auto, using(jc_typed::proofs::Growing::growing, jc_exprs_nodes_spec::proofs::Runs::runs, jc_exprs_nodes::proofs::Staying::staying), unfolding(crate::specs::Rests::element_behind))]
pub fn indexed<'a>(
    alloc: Global,
    methods: &Methods<'a>,
    walk: &mut Walk,
    index: &Expr,
    array: u32,
) -> Result<Option<LocatedAt<'a>>, WantOfMemory>
    requires index { IsMethodIndex methods.now.scene.now.table.now methods.now.index.now }
    requires scene { IsWorldly methods.now.scene.now }
    requires array { array < length walk.old.nodes }
    ensures state { OnOk result ((element_behind (world_of methods.now.scene.now) (has walk.old.nodes array) index.now (now walk.old)).state ≡ now walk.new) }
    ensures value { IfOk result (λ l. (element_behind (world_of methods.now.scene.now) (has walk.old.nodes array) index.now (now walk.old)).has ≡ has_located walk.new.nodes l) }
    ensures below { IfOk result (λ l. LocatedBelow (length walk.new.nodes) l) }
    ensures grows { Grows walk.old.nodes walk.new.nodes }
{
    let at = typed(alloc, methods, walk, None, index)?;
    element_or(alloc, methods.scene, walk, array, at)
}

// What an expression finds: 610 where it is no variable.
#[cycle(expressions)]
#[tactic(auto, using(jc_typed::proofs::Growing::growing, jc_exprs_nodes_spec::proofs::Runs::runs, jc_exprs_nodes::proofs::Staying::staying, jc_exprs_forms::proofs::ByForms::by_located, crate::proofs::Through::rests))]
fn located<'a>(
    alloc: Global,
    methods: &Methods<'a>,
    walk: &mut Walk,
    e: &Expr,
) -> Result<Option<LocatedAt<'a>>, WantOfMemory>
    requires index { IsMethodIndex methods.now.scene.now.table.now methods.now.index.now }
    requires scene { IsWorldly methods.now.scene.now }
    ensures state { OnOk result ((ran (located (world_of methods.now.scene.now) e.now) (now walk.old)).state ≡ now walk.new) }
    ensures value { IfOk result (λ l. (ran (located (world_of methods.now.scene.now) e.now) (now walk.old)).has ≡ has_located walk.new.nodes l) }
    ensures below { IfOk result (λ l. LocatedBelow (length walk.new.nodes) l) }
    ensures grows { Grows walk.old.nodes walk.new.nodes }
{
    let scene = methods.scene;
    match e {
        Expr::Field { of, name } => field_located(alloc, methods, walk, of.get(), name),
        Expr::Index { of, index } => {
            let array = typed(alloc, methods, walk, None, of.get())?;
            indexed(alloc, methods, walk, index.get(), array)
        }
        Expr::SuperField { at: n, name } => {
            super_member(alloc, walk, scene, at(scene, *n), name.text.str())
        }
        Expr::Paren { inner, .. } => located(alloc, methods, walk, inner.get()),
        Expr::Name(name) => {
            simple_located(alloc, scene, walk, at(scene, name.at), name.text.str())
        }
        _ => {
            let value = typed(alloc, methods, walk, None, e)?;
            Ok(no_variable(walk, value))
        }
    }
}

/// The variable that is assigned.
#[cycle(expressions)]
#[tactic(auto, using(jc_typed::proofs::Growing::growing, jc_exprs_nodes_spec::proofs::Runs::runs, jc_exprs_nodes::proofs::Staying::staying))]
pub fn targeted(
    alloc: Global,
    methods: &Methods,
    walk: &mut Walk,
    e: &Expr,
) -> Result<Option<TargetAt>, WantOfMemory>
    requires index { IsMethodIndex methods.now.scene.now.table.now methods.now.index.now }
    requires scene { IsWorldly methods.now.scene.now }
    ensures state { OnOk result ((ran (targeted (world_of methods.now.scene.now) e.now) (now walk.old)).state ≡ now walk.new) }
    ensures value { IfOk result (λ v. (ran (targeted (world_of methods.now.scene.now) e.now) (now walk.old)).has ≡ has_target walk.new.nodes v) }
    ensures below { IfOk result (λ v. TargetBelow (length walk.new.nodes) v) }
    ensures grows { Grows walk.old.nodes walk.new.nodes }
{
    let found = located(alloc, methods, walk, e)?;
    target_or(
        alloc,
        methods.scene,
        walk,
        start_of(methods.scene, e),
        found,
    )
}
