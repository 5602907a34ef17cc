//! The expressions of items, as the walk goes through them.
ghost use Rattle.std.specs.Prelude.{◌≡◌, ◌<◌, None, IfOk, OnOk, length};
ghost use Rattle.std.specs.Option.{option_copied};
ghost use Rattle.jc_overriding.specs.Viewing.{with_dims};
ghost use Rattle.jc_typed.specs.Parts.{Grows};
ghost use Rattle.jc_exprs_nodes_spec.specs.Told.{ran};
ghost use Rattle.jc_exprs_nodes.specs.Walks.{has, now};
ghost use Rattle.jc_exprs_spec.specs.Typing.{effect, initialised, typing};
ghost use Rattle.jc_members.specs.Named.{IsMethodIndex};
ghost use Rattle.jc_exprs_worlds.specs.Scenes.{IsWorldly, world_of};
ghost use Rattle.jc_exprs_parts_spec.specs.Worlds.{written};
ghost use Rattle.jc_exprs_locals.specs.Scoped.{locals_of};
ghost use Rattle.jc_exprs_starts.specs.Wanted.{WantedBelow, wanted_in};
ghost use Rattle.jc_exprs_gathering.specs.Gathered.{has_operand as operand_at};
ghost use Rattle.jc_stmts_spec.specs.Courses.{each, last_type};
ghost use Rattle.jc_stmts_plan.specs.Seen.{want_seen};
ghost use Rattle.jc_stmts_wants.specs.Laws.{asked};
ghost use Rattle.jc_stmts_wants.specs.Wanting.{OperandBelow, SomeElementsBelow, has_elements, has_operand};
ghost use Rattle.jc_stmts_items.specs.Settings.{IsSetting, world_within};

use crate::scenes::{declared_type, scene_in};
use crate::setting::Setting;
use jc_exprs::{effect, initialised, typed as typed_expression};
use jc_exprs_calls::Methods;
use jc_exprs_locals::Locals;
use jc_exprs_nodes::Walk;
use jc_rules::WantOfMemory;
use jc_stmts_answers::ElementsAt;
use jc_stmts_plan::Want;
use jc_stmts_wants::each;
use jc_tree::{Expr, Init, TypeTree};
use jc_typed::{Nodes, OperandNode};
use jc_types::{Ty, copy_type};
use std::alloc::Global;

// The type of the method's result, by its place in the arena, if there is one.
#[tactic(auto, using(jc_typed::proofs::Growing::growing))]
fn push_wanted(
    alloc: Global,
    nodes: &mut Nodes,
    to: Option<&Ty>,
) -> Result<Option<u32>, WantOfMemory>
    ensures value { IfOk result (λ at. wanted_in nodes.new at ≡ option_copied to.entry) }
    ensures within { IfOk result (λ at. WantedBelow (length nodes.new) at) }
    ensures grows { Grows nodes.old nodes.new }
{
    match to {
        None => Ok(None),
        Some(ty) => {
            let at = nodes.push_type(copy_type(alloc, ty)?)?;
            Ok(Some(at))
        }
    }
}

/// An expression whose value is used, and assigned to no type.
#[tactic(auto, using(jc_typed::proofs::Growing::growing))]
pub fn typed(
    alloc: Global,
    setting: &Setting,
    locals: &Locals,
    walk: &mut Walk,
    expr: &Expr,
) -> Result<u32, WantOfMemory>
    requires { IsSetting setting.now }
    ensures state { OnOk result ((ran (typing (world_within setting.now (locals_of locals.now)) None expr.now) (now walk.old)).state ≡ now walk.new) }
    ensures value { IfOk result (λ at. (ran (typing (world_within setting.now (locals_of locals.now)) None expr.now) (now walk.old)).has ≡ has walk.new.nodes at) }
    ensures within { IfOk result (λ at. at < length walk.new.nodes) }
    ensures grows { Grows walk.old.nodes walk.new.nodes }
{
    let scene = scene_in(setting, locals);
    let methods = Methods {
        scene: &scene,
        index: setting.index,
    };
    typed_expression(alloc, &methods, walk, None, expr)
}

// The value of a `return`, which is assigned to the type of the method's result.
#[tactic(auto, using(jc_typed::proofs::Growing::growing))]
fn returned(
    alloc: Global,
    setting: &Setting,
    locals: &Locals,
    walk: &mut Walk,
    expr: &Expr,
) -> Result<u32, WantOfMemory>
    requires { IsSetting setting.now }
    ensures state { OnOk result ((ran (typing (world_within setting.now (locals_of locals.now)) (option_copied setting.now.of_result) expr.now) (now walk.old)).state ≡ now walk.new) }
    ensures value { IfOk result (λ at. (ran (typing (world_within setting.now (locals_of locals.now)) (option_copied setting.now.of_result) expr.now) (now walk.old)).has ≡ has walk.new.nodes at) }
    ensures within { IfOk result (λ at. at < length walk.new.nodes) }
    ensures grows { Grows walk.old.nodes walk.new.nodes }
{
    let scene = scene_in(setting, locals);
    let methods = Methods {
        scene: &scene,
        index: setting.index,
    };
    let to = push_wanted(alloc, &mut walk.nodes, setting.of_result)?;
    typed_expression(alloc, &methods, walk, to, expr)
}

// An expression that is a statement.
#[tactic(auto, using(jc_typed::proofs::Growing::growing))]
fn effected(
    alloc: Global,
    setting: &Setting,
    locals: &Locals,
    walk: &mut Walk,
    expr: &Expr,
) -> Result<u32, WantOfMemory>
    requires { IsSetting setting.now }
    ensures state { OnOk result ((ran (effect (world_within setting.now (locals_of locals.now)) expr.now) (now walk.old)).state ≡ now walk.new) }
    ensures value { IfOk result (λ at. (ran (effect (world_within setting.now (locals_of locals.now)) expr.now) (now walk.old)).has ≡ has walk.new.nodes at) }
    ensures within { IfOk result (λ at. at < length walk.new.nodes) }
    ensures grows { Grows walk.old.nodes walk.new.nodes }
{
    let scene = scene_in(setting, locals);
    let methods = Methods {
        scene: &scene,
        index: setting.index,
    };
    effect(alloc, &methods, walk, expr)
}

/// An expression as it is asked by what it is wanted for.
pub fn asked(
    alloc: Global,
    setting: &Setting,
    locals: &Locals,
    walk: &mut Walk,
    want: Want,
    expr: &Expr,
) -> Result<u32, WantOfMemory>
    requires { IsSetting setting.now }
    ensures state { OnOk result ((ran (asked (world_within setting.now (locals_of locals.now)) (option_copied setting.now.of_result) expr.now (want_seen want)) (now walk.old)).state ≡ now walk.new) }
    ensures value { IfOk result (λ at. (ran (asked (world_within setting.now (locals_of locals.now)) (option_copied setting.now.of_result) expr.now (want_seen want)) (now walk.old)).has ≡ has walk.new.nodes at) }
    ensures within { IfOk result (λ at. at < length walk.new.nodes) }
    ensures grows { Grows walk.old.nodes walk.new.nodes }
{
    match want {
        Want::Effect => effected(alloc, setting, locals, walk, expr),
        Want::Truth => typed(alloc, setting, locals, walk, expr),
        Want::Result => returned(alloc, setting, locals, walk, expr),
        Want::Nowhere => typed(alloc, setting, locals, walk, expr),
        Want::Selector => typed(alloc, setting, locals, walk, expr),
        Want::Thrown { .. } => typed(alloc, setting, locals, walk, expr),
    }
}

// The operand at a place, where one stands there.
fn if_operand(nodes: &Nodes, at: u32) -> Option<u32>
    requires { at < length nodes.now }
    ensures value { operand_at nodes.now at ≡ has_operand nodes.now result }
    ensures within { OperandBelow (length nodes.now) result }
{
    match nodes.operand(at) {
        OperandNode::Missing => None,
        OperandNode::Operand { .. } => Some(at),
    }
}

/// The initialiser of the local that was declared last.
#[tactic(auto, using(jc_typed::proofs::Growing::growing))]
pub fn filled(
    alloc: Global,
    setting: &Setting,
    locals: &Locals,
    walk: &mut Walk,
    init: &Init,
) -> Result<Option<u32>, WantOfMemory>
    requires { IsSetting setting.now }
    ensures state { OnOk result ((ran (initialised (world_within setting.now (locals_of locals.now)) (last_type (locals_of locals.now)) init.now) (now walk.old)).state ≡ now walk.new) }
    ensures value { IfOk result (λ at. (ran (initialised (world_within setting.now (locals_of locals.now)) (last_type (locals_of locals.now)) init.now) (now walk.old)).has ≡ has_operand walk.new.nodes at) }
    ensures within { IfOk result (λ at. OperandBelow (length walk.new.nodes) at) }
    ensures grows { Grows walk.old.nodes walk.new.nodes }
{
    let scene = scene_in(setting, locals);
    let methods = Methods {
        scene: &scene,
        index: setting.index,
    };
    let ty = walk.nodes.push_type(locals.last_type(alloc)?)?;
    let at = initialised(alloc, &methods, walk, ty, init)?;
    Ok(if_operand(&walk.nodes, at))
}

// What an enhanced `for` goes over with a variable of this type.
#[tactic(auto, using(jc_typed::proofs::Growing::growing, crate::proofs::Gone::each_after))]
fn gone_over(
    alloc: Global,
    methods: &Methods,
    walk: &mut Walk,
    over: &Expr,
    to: &Ty,
) -> Result<Option<ElementsAt>, WantOfMemory>
    requires index { IsMethodIndex methods.now.scene.now.table.now methods.now.index.now }
    requires scene { IsWorldly methods.now.scene.now }
    ensures state { OnOk result ((ran (each (world_of methods.now.scene.now) over.now to.now) (now walk.old)).state ≡ now walk.new) }
    ensures value { IfOk result (λ e. (ran (each (world_of methods.now.scene.now) over.now to.now) (now walk.old)).has ≡ has_elements walk.new.nodes e) }
    ensures below { IfOk result (λ e. SomeElementsBelow (length walk.new.nodes) e) }
    ensures grows { Grows walk.old.nodes walk.new.nodes }
{
    let at = typed_expression(alloc, methods, walk, None, over)?;
    each(alloc, methods.scene, walk, to, at)
}

/// What an enhanced `for` goes over with a variable whose type is written there.
#[tactic(auto, using(jc_typed::proofs::Growing::growing))]
pub fn elements(
    alloc: Global,
    setting: &Setting,
    locals: &Locals,
    walk: &mut Walk,
    over: &Expr,
    ty: &TypeTree,
    dims: u32,
) -> Result<Option<ElementsAt>, WantOfMemory>
    requires { IsSetting setting.now }
    ensures state { OnOk result ((ran (each (world_within setting.now (locals_of locals.now)) over.now (with_dims dims (written (world_within setting.now (locals_of locals.now)) ty.now))) (now walk.old)).state ≡ now walk.new) }
    ensures value { IfOk result (λ e. (ran (each (world_within setting.now (locals_of locals.now)) over.now (with_dims dims (written (world_within setting.now (locals_of locals.now)) ty.now))) (now walk.old)).has ≡ has_elements walk.new.nodes e) }
    ensures below { IfOk result (λ e. SomeElementsBelow (length walk.new.nodes) e) }
    ensures grows { Grows walk.old.nodes walk.new.nodes }
{
    let scene = scene_in(setting, locals);
    let to = declared_type(alloc, &scene, ty, dims)?;
    let methods = Methods {
        scene: &scene,
        index: setting.index,
    };
    gone_over(alloc, &methods, walk, over, &to)
}
