//! What expressions mean before a point (JLS 6.5.2).
ghost use Rattle.std.specs.Prelude.{◌≡◌, IfOk, OnOk};
ghost use Rattle.jc_members.specs.Named.{IsMethodIndex};
ghost use Rattle.jc_typed.specs.Parts.{Grows};
ghost use Rattle.jc_exprs_nodes_spec.specs.Told.{onward, ran};
ghost use Rattle.jc_exprs_nodes.specs.Walks.{now};
ghost use Rattle.jc_exprs_worlds.specs.Scenes.{IsWorldly, world_of};
ghost use Rattle.jc_exprs_forms.specs.Forms.{meant, starts};
ghost use Rattle.jc_exprs_parts_spec.specs.Names.{next_meant};
ghost use Rattle.jc_exprs_meanings.specs.Meant.{has_meaning, MeaningBelow};

use crate::typing::typed;
use jc_exprs_calls::Methods;
use jc_exprs_meanings::{MeaningAt, value_meant};
use jc_exprs_names::{first_meant, next_meant_or};
use jc_exprs_nodes::Walk;
use jc_exprs_starts::start_of;
use jc_exprs_worlds::at;
use jc_rules::WantOfMemory;
use jc_tree::{Expr, Ident};
use std::alloc::Global;

// A further part of a name.
#[cycle(expressions)]
#[tactic(auto, using(jc_typed::proofs::Growing::growing, jc_exprs_nodes_spec::proofs::Runs::runs, jc_exprs_nodes::proofs::Staying::staying))]
fn field_meant(
    alloc: Global,
    methods: &Methods,
    walk: &mut Walk,
    of: &Expr,
    name: &Ident,
) -> Result<Option<MeaningAt>, WantOfMemory>
    requires index { IsMethodIndex methods.now.scene.now.table.now methods.now.index.now }
    requires scene { IsWorldly methods.now.scene.now }
    ensures state { OnOk result ((ran (onward (meant (world_of methods.now.scene.now) of.now) (next_meant (world_of methods.now.scene.now) (starts (world_of methods.now.scene.now) of.now) name.now.text)) (now walk.old)).state ≡ now walk.new) }
    ensures value { IfOk result (λ m. (ran (onward (meant (world_of methods.now.scene.now) of.now) (next_meant (world_of methods.now.scene.now) (starts (world_of methods.now.scene.now) of.now) name.now.text)) (now walk.old)).has ≡ has_meaning walk.new.nodes m) }
    ensures within { IfOk result (λ m. MeaningBelow walk.new.nodes m) }
    ensures grows { Grows walk.old.nodes walk.new.nodes }
{
    let scene = methods.scene;
    let before = meant(alloc, methods, walk, of)?;
    let place = start_of(scene, of);
    next_meant_or(alloc, scene, walk, place, name.text.str(), before)
}

/// What an expression means before a point: what is no name means its value.
#[cycle(expressions)]
#[tactic(auto, using(jc_typed::proofs::Growing::growing, jc_exprs_nodes_spec::proofs::Runs::runs, jc_exprs_nodes::proofs::Staying::staying, jc_exprs_forms::proofs::ByForms::by_meant))]
pub fn meant(
    alloc: Global,
    methods: &Methods,
    walk: &mut Walk,
    e: &Expr,
) -> Result<Option<MeaningAt>, WantOfMemory>
    requires index { IsMethodIndex methods.now.scene.now.table.now methods.now.index.now }
    requires scene { IsWorldly methods.now.scene.now }
    ensures state { OnOk result ((ran (meant (world_of methods.now.scene.now) e.now) (now walk.old)).state ≡ now walk.new) }
    ensures value { IfOk result (λ m. (ran (meant (world_of methods.now.scene.now) e.now) (now walk.old)).has ≡ has_meaning walk.new.nodes m) }
    ensures within { IfOk result (λ m. MeaningBelow walk.new.nodes m) }
    ensures grows { Grows walk.old.nodes walk.new.nodes }
{
    let scene = methods.scene;
    match e {
        Expr::Field { of, name } => field_meant(alloc, methods, walk, of.get(), name),
        Expr::Name(name) => first_meant(alloc, scene, walk, at(scene, name.at), name.text.str()),
        _ => {
            let value = typed(alloc, methods, walk, None, e)?;
            Ok(value_meant(walk, value))
        }
    }
}
