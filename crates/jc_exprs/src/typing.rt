//! The typing of each form of expression (JLS 15).
ghost use Rattle.std.specs.Prelude.{◌<◌, ◌≡◌, IfOk, length, OnOk};
ghost use Rattle.jc_members.specs.Named.{IsMethodIndex};
ghost use Rattle.jc_typed.specs.Parts.{Grows};
ghost use Rattle.jc_exprs_nodes_spec.specs.Told.{ran};
ghost use Rattle.jc_exprs_nodes.specs.Walks.{has, now};
ghost use Rattle.jc_exprs_spec.specs.Typing.{typing};
ghost use Rattle.jc_exprs_starts.specs.Wanted.{wanted_in, WantedBelow};
ghost use Rattle.jc_exprs_worlds.specs.Scenes.{IsWorldly, world_of};

use crate::assigning::assigned_value;
use crate::branches::{FirstBranch, branched};
use crate::calls::{Asking, asked_before, called_on, called_super, invoked};
use crate::casting::cast;
use crate::chains::chained;
use crate::creating::creation_of;
use crate::signs::prefixed;
use crate::variables::{field_located, indexed, targeted};
use jc_exprs_assigning::{Change, changed_target};
use jc_exprs_calls::Methods;
use jc_exprs_literals::{restarted, with_value};
use jc_exprs_located::{super_member, this_value};
use jc_exprs_names::{simple_located, value_or};
use jc_exprs_nodes::{Walk, broken};
use jc_exprs_starts::{literal, operator_of, postfix_op, start_of};
use jc_exprs_worlds::at;
use jc_rules::WantOfMemory;
use jc_tree::Expr;
use std::alloc::Global;

/// An expression whose value is used, and assigned to a type, by its place in the arena, or to none.
#[cycle(expressions)]
#[tactic(auto, using(jc_typed::proofs::Growing::growing, jc_exprs_nodes_spec::proofs::Runs::runs, jc_exprs_nodes::proofs::Staying::staying, jc_exprs_forms::proofs::ByForms::by_typing, jc_exprs_worlds::proofs::Told::worlds, jc_exprs_starts::proofs::Staying::wanted, crate::proofs::Through::rests))]
pub fn typed(
    alloc: Global,
    methods: &Methods,
    walk: &mut Walk,
    wanted: Option<u32>,
    e: &Expr,
) -> Result<u32, WantOfMemory>
    requires index { IsMethodIndex methods.now.scene.now.table.now methods.now.index.now }
    requires scene { IsWorldly methods.now.scene.now }
    requires wanted { WantedBelow (length walk.old.nodes) wanted }
    ensures state { OnOk result ((ran (typing (world_of methods.now.scene.now) (wanted_in walk.old.nodes wanted) e.now) (now walk.old)).state ≡ now walk.new) }
    ensures value { IfOk result (λ at. (ran (typing (world_of methods.now.scene.now) (wanted_in walk.old.nodes wanted) e.now) (now walk.old)).has ≡ has walk.new.nodes at) }
    ensures within { IfOk result (λ at. at < length walk.new.nodes) }
    ensures grows { Grows walk.old.nodes walk.new.nodes }
{
    let scene = methods.scene;
    let table = scene.table;
    match e {
        Expr::Assign { target, op, value } => {
            let target = targeted(alloc, methods, walk, target.get())?;
            assigned_value(alloc, methods, walk, value.get(), operator_of(*op), target)
        }
        Expr::Conditional {
            test,
            then,
            otherwise,
        } => {
            let test = typed(alloc, methods, walk, None, test.get())?;
            let from = walk.env.bounds.len() as u64;
            let first = typed(alloc, methods, walk, None, then.get())?;
            let before = FirstBranch { test, first, from };
            branched(alloc, methods, walk, otherwise.get(), before)
        }
        Expr::Chain { first, rest } => {
            let first = typed(alloc, methods, walk, None, first.get())?;
            chained(alloc, methods, walk, rest.slice(), first)
        }
        Expr::Prefix {
            first,
            more,
            operand,
        } => {
            let more = more.get().slice();
            prefixed(alloc, methods, walk, operand.get(), *first, more)
        }
        Expr::Cast { at: n, ty, operand } => {
            let operand = typed(alloc, methods, walk, None, operand.get())?;
            cast(alloc, scene, walk, at(scene, *n), ty.get(), operand)
        }
        Expr::Postfix { of, op } => {
            let variable = targeted(alloc, methods, walk, of.get())?;
            let change = Change {
                place: start_of(scene, of.get()),
                op: postfix_op(*op),
                is_prefix: false,
            };
            changed_target(alloc, table, walk, change, variable)
        }
        Expr::Field { of, name } => {
            let field = field_located(alloc, methods, walk, of.get(), name)?;
            value_or(alloc, scene, walk, field)
        }
        Expr::Call {
            of,
            type_args,
            name,
            actuals,
        } => {
            let before = asked_before(alloc, methods, walk, of.get())?;
            let asking = Asking {
                place: start_of(scene, of.get()),
                name: name.get(),
                explicit: type_args.get().slice(),
                wanted,
            };
            let actuals = actuals.get().slice();
            let call = called_on(alloc, methods, walk, actuals, &asking, before)?;
            with_value(table, walk, call)
        }
        Expr::Index { of, index } => {
            let array = typed(alloc, methods, walk, None, of.get())?;
            let element = indexed(alloc, methods, walk, index.get(), array)?;
            value_or(alloc, scene, walk, element)
        }
        Expr::InnerNew { of, .. } => broken(walk, 203, start_of(scene, of.get())),
        Expr::Literal { at: n, value } => literal(alloc, scene, walk, at(scene, *n), value),
        Expr::This { at: n } => this_value(alloc, walk, scene, at(scene, *n)),
        Expr::SuperField { at: n, name } => {
            let field = super_member(alloc, walk, scene, at(scene, *n), name.text.str())?;
            value_or(alloc, scene, walk, field)
        }
        Expr::SuperCall {
            at: n,
            type_args,
            name,
            actuals,
        } => {
            let asking = Asking {
                place: at(scene, *n),
                name: name.get(),
                explicit: type_args.get().slice(),
                wanted,
            };
            let call = called_super(alloc, methods, walk, actuals.get().slice(), *n, &asking)?;
            with_value(table, walk, call)
        }
        Expr::Paren { at: n, inner } => {
            let inner = typed(alloc, methods, walk, wanted, inner.get())?;
            restarted(walk, inner, at(scene, *n))
        }
        Expr::Name(name) => {
            let place = at(scene, name.at);
            let found = simple_located(alloc, scene, walk, place, name.text.str())?;
            value_or(alloc, scene, walk, found)
        }
        Expr::Invoke { name, actuals } => {
            let actuals = actuals.get().slice();
            let call = invoked(alloc, methods, walk, actuals, name, wanted)?;
            with_value(table, walk, call)
        }
        Expr::New { at: n, creation } => {
            let place = at(scene, *n);
            creation_of(alloc, methods, walk, creation.get(), place, wanted)
        }
        Expr::ClassLiteral { .. } => broken(walk, 203, at(scene, 0)),
        Expr::VoidLiteral { at: n } => broken(walk, 203, at(scene, *n)),
        Expr::OuterThis { first, .. } => broken(walk, 203, at(scene, first.at)),
    }
}
