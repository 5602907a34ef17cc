//! `instanceof` (JLS 15.20.2).
ghost use Rattle.std.specs.Prelude.{◌≡◌, ◌∷◌, [], Some, IfOk, OnOk};
ghost use Rattle.jc_types.specs.Breaks.{least};
ghost use Rattle.jc_types.specs.declared.form.Ty.TheVariants.{Prim};
ghost use Rattle.jc_types.specs.declared.form.Primitive.TheVariants.{Boolean};
ghost use Rattle.jc_types.specs.Erasing.{erasure};
ghost use Rattle.jc_types.specs.Reifying.{reifiable};
ghost use Rattle.jc_typed.specs.Parts.{Grows};
ghost use Rattle.jc_typed.specs.Trees.{InstanceOf};
ghost use Rattle.jc_exprs_nodes_spec.specs.Told.{ran, standing, unless};
ghost use Rattle.jc_exprs_nodes_spec.specs.Typeds.{node, plain};
ghost use Rattle.jc_exprs_nodes.specs.Walks.{as_breaks, now};
ghost use Rattle.jc_exprs_parts_spec.specs.Chains.{Whole, instance_cast, joined_start, tested, whole};
ghost use Rattle.jc_exprs_chains.specs.Chaining.{IsJoined, JoinedIn, has_joined, joined_at};

use crate::joined::{JoinedAt, JoinedForm};
use crate::whole::whole;
use jc_convert::cast;
use jc_exprs_nodes::{Judging, Walk, note, refusal, unconverted};
use jc_exprs_operators::push_node;
use jc_rules::{Items, Place, Refusal, WantOfMemory};
use jc_sub::is_primitive;
use jc_typed::{ExprForm, Nodes};
use jc_types::{Env, Erased, Primitive, Table, Ty, erasure, reifiable};
use std::alloc::Global;

// The rule that is broken by a cast from one type to the other.
fn cast_break(
    alloc: Global,
    judging: &Judging,
    place: Place,
    from: &Ty,
    to: &Ty,
) -> Result<Option<Refusal>, WantOfMemory>
    ensures { IfOk result (λ r. instance_cast judging.now.table.now judging.now.env.now.bounds place from.now to.now ≡ as_breaks r) }
{
    if is_primitive(from) || is_primitive(to) {
        return Ok(Some(refusal(609, place)));
    }
    let converts = cast(alloc, judging.table, judging.env, from, to)?;
    Ok(unconverted(609, place, &converts))
}

fn type_break(table: &Table, place: Place, to: &Ty) -> Option<Refusal>
    ensures { unless (reifiable table.now to.now) 612 place ≡ as_breaks result }
{
    if reifiable(table, to) {
        None
    } else {
        Some(refusal(612, place))
    }
}

// A break, and maybe a second one: the walk keeps the least.
fn note_both(walk: &mut Walk, first: Refusal, second: Option<Refusal>)
    ensures state { standing walk.old.env.bounds (least walk.old.found (first ∷ as_breaks second)) ≡ now walk.new }
    ensures nodes { walk.new.nodes ≡ walk.old.nodes }
{
    note(walk, first);
    match second {
        None => {}
        Some(second) => note(walk, second),
    }
}

#[tactic(auto, using(jc_typed::proofs::Growing::growing, jc_exprs_nodes::proofs::Staying::staying))]
fn push_test(nodes: &mut Nodes, left: JoinedAt, to: Erased) -> Result<JoinedAt, WantOfMemory>
    requires { IsJoined nodes.old left }
    ensures value { IfOk result (λ j. Whole (node (joined_start (joined_at nodes.old left)) (Prim Boolean) (InstanceOf (plain (whole (joined_at nodes.old left))) to)) ≡ joined_at nodes.new j) }
    ensures joined { IfOk result (λ j. IsJoined nodes.new j) }
    ensures grows { Grows nodes.old nodes.new }
{
    let start = left.start;
    let of = whole(nodes, left)?;
    let ty = nodes.push_type(Ty::Prim(Primitive::Boolean))?;
    let test = push_node(nodes, start, ty, ExprForm::InstanceOf { of: of.at, to })?;
    Ok(JoinedAt {
        start,
        ty: test.ty,
        form: JoinedForm::Whole(test),
    })
}

// A test whose premises hold, in a walk.
#[tactic(auto, using(jc_typed::proofs::Growing::growing))]
fn test_whole(
    alloc: Global,
    table: &Table,
    walk: &mut Walk,
    to: &Ty,
    left: JoinedAt,
) -> Result<Option<JoinedAt>, WantOfMemory>
    requires { IsJoined walk.old.nodes left }
    ensures state { OnOk result (now walk.new ≡ now walk.old) }
    ensures value { IfOk result (λ j. Some (Whole (node (joined_start (joined_at walk.old.nodes left)) (Prim Boolean) (InstanceOf (plain (whole (joined_at walk.old.nodes left))) (erasure table.now [] to.now)))) ≡ has_joined walk.new.nodes j) }
    ensures joined { IfOk result (λ j. JoinedIn walk.new.nodes j) }
    ensures grows { Grows walk.old.nodes walk.new.nodes }
{
    let none = Env {
        bounds: Items::new(alloc),
    };
    let erased = erasure(table, &none, to);
    let tested = push_test(&mut walk.nodes, left, erased)?;
    Ok(Some(tested))
}

/// `instanceof` behind what is joined so far: at the chain's first token 609 where a side is primitive or the cast isn't allowed, 606 where that can't be told, and 612 where the type isn't
/// reifiable.
#[tactic(auto, using(jc_typed::proofs::Growing::growing), unfolding(jc_exprs_nodes_spec::specs::Told::ran, jc_exprs_parts_spec::specs::Chains::tested))]
pub fn tested(
    alloc: Global,
    table: &Table,
    walk: &mut Walk,
    to: &Ty,
    left: JoinedAt,
) -> Result<Option<JoinedAt>, WantOfMemory>
    requires { IsJoined walk.old.nodes left }
    ensures state { OnOk result ((ran (tested table.now to.now (joined_at walk.old.nodes left)) (now walk.old)).state ≡ now walk.new) }
    ensures value { IfOk result (λ j. (ran (tested table.now to.now (joined_at walk.old.nodes left)) (now walk.old)).has ≡ has_joined walk.new.nodes j) }
    ensures joined { IfOk result (λ j. JoinedIn walk.new.nodes j) }
    ensures grows { Grows walk.old.nodes walk.new.nodes }
{
    let judging = Judging {
        table,
        env: &walk.env,
    };
    let cast = cast_break(alloc, &judging, left.start, walk.nodes.ty(left.ty), to)?;
    let second = type_break(table, left.start, to);
    match cast {
        Some(first) => {
            note_both(walk, first, second);
            Ok(None)
        }
        None => match second {
            Some(second) => {
                note(walk, second);
                Ok(None)
            }
            None => test_whole(alloc, table, walk, to, left),
        },
    }
}
