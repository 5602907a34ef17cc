//! Initialisers of variables and of arrays (JLS 8.3, 10.6, 14.4).
ghost use Rattle.std.specs.Prelude.{◌<◌, ◌≡◌, IfOk, length, OnOk};
ghost use Rattle.jc_members.specs.Named.{IsMethodIndex};
ghost use Rattle.jc_typed.specs.Parts.{Grows, type_of};
ghost use Rattle.jc_exprs_nodes_spec.specs.Told.{every, fine, ran};
ghost use Rattle.jc_exprs_nodes_spec.specs.Gates.{gated};
ghost use Rattle.jc_exprs_nodes_spec.specs.Typeds.{node, operands_of, plain};
ghost use Rattle.jc_exprs_nodes.specs.Walks.{AllBelow, has, now};
ghost use Rattle.jc_exprs_gathering.specs.Gathered.{has_operand, has_operands};
ghost use Rattle.jc_exprs_spec.specs.Typing.{element_of_some, listed_as};
ghost use Rattle.jc_exprs_starts.specs.Wanted.{wanted_in, WantedBelow};
ghost use Rattle.jc_exprs_worlds.specs.Scenes.{IsWorldly, world_of};
ghost use Rattle.jc_exprs_forms.specs.Forms.{giving, giving_value, givings, listing};
ghost use Rattle.jc_exprs_parts_spec.specs.Values.{assigned};
ghost use Rattle.jc_types.specs.declared.form.Ty.TheVariants.{NullTy};
ghost use Rattle.jc_typed.specs.Trees.{ArrayOf, NoOperands};

use crate::typing::typed;
use jc_exprs_calls::Methods;
use jc_exprs_gathering::are_given;
use jc_exprs_nodes::{Walk, missing, part};
use jc_exprs_values::{array_of, assigned_or, listed_or};
use jc_exprs_worlds::{Scene, at};
use jc_rules::{Items, Place, WantOfMemory};
use jc_tree::{ArrayInit, Expr, Init};
use jc_typed::{Nodes, OperandNode};
use jc_types::{Table, Ty, copy_type, element};
use std::alloc::Global;

// The type of the elements, where an array is wanted.
#[tactic(auto, using(jc_typed::proofs::Growing::growing))]
fn push_element(
    alloc: Global,
    nodes: &mut Nodes,
    wanted: Option<u32>,
) -> Result<Option<u32>, WantOfMemory>
    requires { WantedBelow (length nodes.old) wanted }
    ensures value { IfOk result (λ r. wanted_in nodes.new r ≡ element_of_some (wanted_in nodes.old wanted)) }
    ensures below { IfOk result (λ r. WantedBelow (length nodes.new) r) }
    ensures grows { Grows nodes.old nodes.new }
{
    let Some(wanted) = wanted else {
        return Ok(None);
    };
    match element(alloc, nodes.ty(wanted))? {
        None => Ok(None),
        Some(ty) => Ok(Some(nodes.push_type(ty)?)),
    }
}

// A typed expression as an operand, without steps.
#[tactic(auto, using(jc_typed::proofs::Growing::growing, jc_exprs_nodes_spec::proofs::Runs::runs))]
fn operand_or(walk: &mut Walk, at: u32) -> Result<u32, WantOfMemory>
    requires { at < length walk.old.nodes }
    ensures state { OnOk result ((gated (λ t. fine (plain t)) (has walk.old.nodes at) (now walk.old)).state ≡ now walk.new) }
    ensures value { IfOk result (λ r. (gated (λ t. fine (plain t)) (has walk.old.nodes at) (now walk.old)).has ≡ has_operand walk.new.nodes r) }
    ensures within { IfOk result (λ r. r < length walk.new.nodes) }
    ensures grows { Grows walk.old.nodes walk.new.nodes }
{
    match part(&walk.nodes, at) {
        None => walk.nodes.push_operand(OperandNode::Missing),
        Some(part) => Ok(part.at),
    }
}

// A value that goes to a type of the arena.
fn assigned_to(
    alloc: Global,
    table: &Table,
    walk: &mut Walk,
    ty: u32,
    at: u32,
) -> Result<u32, WantOfMemory>
    requires ty { ty < length walk.old.nodes }
    requires at { at < length walk.old.nodes }
    ensures state { OnOk result ((gated (assigned table.now (type_of walk.old.nodes ty)) (has walk.old.nodes at) (now walk.old)).state ≡ now walk.new) }
    ensures value { IfOk result (λ r. (gated (assigned table.now (type_of walk.old.nodes ty)) (has walk.old.nodes at) (now walk.old)).has ≡ has_operand walk.new.nodes r) }
    ensures within { IfOk result (λ r. r < length walk.new.nodes) }
    ensures grows { Grows walk.old.nodes walk.new.nodes }
{
    let ty = copy_type(alloc, walk.nodes.ty(ty))?;
    assigned_or(alloc, table, walk, &ty, at)
}

// An array whose type nothing tells.
fn listed_alone(
    alloc: Global,
    walk: &mut Walk,
    place: Place,
    ats: &[u32],
) -> Result<u32, WantOfMemory>
    requires { AllBelow (length walk.old.nodes) ats.now }
    ensures state { OnOk result ((gated (λ os. fine (node place NullTy (ArrayOf (operands_of os NoOperands)))) (has_operands walk.old.nodes ats.now) (now walk.old)).state ≡ now walk.new) }
    ensures value { IfOk result (λ at. (gated (λ os. fine (node place NullTy (ArrayOf (operands_of os NoOperands)))) (has_operands walk.old.nodes ats.now) (now walk.old)).has ≡ has walk.new.nodes at) }
    ensures within { IfOk result (λ at. at < length walk.new.nodes) }
    ensures grows { Grows walk.old.nodes walk.new.nodes }
{
    if !are_given(&walk.nodes, ats) {
        return missing(walk);
    }
    array_of(alloc, walk, place, &Ty::NullTy, ats)
}

// The values of an array initialiser as an array.
#[tactic(auto, using(jc_exprs_worlds::proofs::Told::worlds))]
fn listed_to(
    alloc: Global,
    scene: &Scene,
    walk: &mut Walk,
    place: Place,
    wanted: Option<u32>,
    ats: &[u32],
) -> Result<u32, WantOfMemory>
    requires wanted { WantedBelow (length walk.old.nodes) wanted }
    requires ats { AllBelow (length walk.old.nodes) ats.now }
    ensures state { OnOk result ((gated (listed_as (world_of scene.now) place (wanted_in walk.old.nodes wanted)) (has_operands walk.old.nodes ats.now) (now walk.old)).state ≡ now walk.new) }
    ensures value { IfOk result (λ at. (gated (listed_as (world_of scene.now) place (wanted_in walk.old.nodes wanted)) (has_operands walk.old.nodes ats.now) (now walk.old)).has ≡ has walk.new.nodes at) }
    ensures within { IfOk result (λ at. at < length walk.new.nodes) }
    ensures grows { Grows walk.old.nodes walk.new.nodes }
{
    match wanted {
        None => listed_alone(alloc, walk, place, ats),
        Some(ty) => {
            let ty = copy_type(alloc, walk.nodes.ty(ty))?;
            listed_or(alloc, scene.table, walk, place, &ty, ats)
        }
    }
}

// A value.
#[cycle(expressions)]
#[tactic(auto, using(jc_typed::proofs::Growing::growing, jc_exprs_nodes_spec::proofs::Runs::runs, jc_exprs_nodes::proofs::Staying::staying, jc_exprs_starts::proofs::Staying::wanted, jc_exprs_worlds::proofs::Told::worlds))]
fn value_given(
    alloc: Global,
    methods: &Methods,
    walk: &mut Walk,
    e: &Expr,
    wanted: Option<u32>,
) -> Result<u32, WantOfMemory>
    requires index { IsMethodIndex methods.now.scene.now.table.now methods.now.index.now }
    requires scene { IsWorldly methods.now.scene.now }
    requires wanted { WantedBelow (length walk.old.nodes) wanted }
    ensures state { OnOk result ((ran (giving_value (world_of methods.now.scene.now) (wanted_in walk.old.nodes wanted) e.now) (now walk.old)).state ≡ now walk.new) }
    ensures value { IfOk result (λ r. (ran (giving_value (world_of methods.now.scene.now) (wanted_in walk.old.nodes wanted) e.now) (now walk.old)).has ≡ has_operand walk.new.nodes r) }
    ensures within { IfOk result (λ r. r < length walk.new.nodes) }
    ensures grows { Grows walk.old.nodes walk.new.nodes }
{
    let at = typed(alloc, methods, walk, wanted, e)?;
    match wanted {
        None => operand_or(walk, at),
        Some(ty) => assigned_to(alloc, methods.scene.table, walk, ty, at),
    }
}

/// An initialiser, by the type that is wanted.
#[cycle(expressions)]
#[tactic(auto, using(jc_typed::proofs::Growing::growing, jc_exprs_nodes_spec::proofs::Runs::runs, jc_exprs_nodes::proofs::Staying::staying, jc_exprs_forms::proofs::ByForms::by_giving))]
pub fn given(
    alloc: Global,
    methods: &Methods,
    walk: &mut Walk,
    init: &Init,
    wanted: Option<u32>,
) -> Result<u32, WantOfMemory>
    requires index { IsMethodIndex methods.now.scene.now.table.now methods.now.index.now }
    requires scene { IsWorldly methods.now.scene.now }
    requires wanted { WantedBelow (length walk.old.nodes) wanted }
    ensures state { OnOk result ((ran (giving (world_of methods.now.scene.now) (wanted_in walk.old.nodes wanted) init.now) (now walk.old)).state ≡ now walk.new) }
    ensures value { IfOk result (λ r. (ran (giving (world_of methods.now.scene.now) (wanted_in walk.old.nodes wanted) init.now) (now walk.old)).has ≡ has_operand walk.new.nodes r) }
    ensures within { IfOk result (λ r. r < length walk.new.nodes) }
    ensures grows { Grows walk.old.nodes walk.new.nodes }
{
    match init {
        Init::Value(e) => value_given(alloc, methods, walk, e, wanted),
        Init::Nested(array) => {
            let place = at(methods.scene, array.at);
            let at = listed(alloc, methods, walk, array, wanted, place)?;
            operand_or(walk, at)
        }
    }
}

// Initialisers one after another.
#[cycle(expressions)]
#[tactic(auto, using(jc_typed::proofs::Growing::growing, jc_exprs_nodes_spec::proofs::Runs::runs, jc_exprs_nodes::proofs::Staying::staying, jc_exprs_gathering::proofs::Gathering::giving, jc_exprs_gathering::proofs::Gathering::walking, jc_exprs_starts::proofs::Staying::wanted))]
fn given_all(
    alloc: Global,
    methods: &Methods,
    walk: &mut Walk,
    inits: &[Init],
    wanted: Option<u32>,
) -> Result<Items<u32>, WantOfMemory>
    requires index { IsMethodIndex methods.now.scene.now.table.now methods.now.index.now }
    requires scene { IsWorldly methods.now.scene.now }
    requires wanted { WantedBelow (length walk.old.nodes) wanted }
    ensures state { OnOk result ((ran (every (givings (world_of methods.now.scene.now) (wanted_in walk.old.nodes wanted) inits.now)) (now walk.old)).state ≡ now walk.new) }
    ensures value { IfOk result (λ ats. (ran (every (givings (world_of methods.now.scene.now) (wanted_in walk.old.nodes wanted) inits.now)) (now walk.old)).has ≡ has_operands walk.new.nodes ats) }
    ensures within { IfOk result (λ ats. AllBelow (length walk.new.nodes) ats) }
    ensures grows { Grows walk.old.nodes walk.new.nodes }
{
    let mut ats = Items::new(alloc);
    for init in inits {
        let at = given(alloc, methods, walk, init, wanted)?;
        ats.push(at)?;
    }
    Ok(ats)
}

/// An array initialiser, by the place at which its array is created and the type that is wanted.
#[cycle(expressions)]
#[tactic(auto, using(jc_typed::proofs::Growing::growing, jc_exprs_nodes_spec::proofs::Runs::runs, jc_exprs_nodes::proofs::Staying::staying, jc_exprs_forms::proofs::ByForms::by_giving, jc_exprs_starts::proofs::Staying::wanted, jc_exprs_worlds::proofs::Told::worlds))]
pub fn listed(
    alloc: Global,
    methods: &Methods,
    walk: &mut Walk,
    array: &ArrayInit,
    wanted: Option<u32>,
    place: Place,
) -> Result<u32, WantOfMemory>
    requires index { IsMethodIndex methods.now.scene.now.table.now methods.now.index.now }
    requires scene { IsWorldly methods.now.scene.now }
    requires wanted { WantedBelow (length walk.old.nodes) wanted }
    ensures state { OnOk result ((ran (listing (world_of methods.now.scene.now) place (wanted_in walk.old.nodes wanted) array.now) (now walk.old)).state ≡ now walk.new) }
    ensures value { IfOk result (λ at. (ran (listing (world_of methods.now.scene.now) place (wanted_in walk.old.nodes wanted) array.now) (now walk.old)).has ≡ has walk.new.nodes at) }
    ensures within { IfOk result (λ at. at < length walk.new.nodes) }
    ensures grows { Grows walk.old.nodes walk.new.nodes }
{
    let element = push_element(alloc, &mut walk.nodes, wanted)?;
    let ats = given_all(alloc, methods, walk, array.inits.slice(), element)?;
    listed_to(alloc, methods.scene, walk, place, wanted, ats.slice())
}
