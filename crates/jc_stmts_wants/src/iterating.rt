//! What an enhanced `for` goes over (JLS 14.14.2).
ghost use Rattle.std.specs.Prelude.{◌≡◌, ◌<◌, [], codes, length, true, false, Some, IfOk, OnOk};
ghost use Rattle.jc_types.specs.Accessors.{class_named};
ghost use Rattle.jc_exprs_nodes_spec.specs.Typeds.{read_guard};
ghost use Rattle.jc_types.specs.Erasing.{object as erased_object};
ghost use Rattle.jc_typed.specs.Parts.{Grows, operand_of, steps_of, type_of};
ghost use Rattle.jc_exprs_nodes_spec.specs.Gates.{gated};
ghost use Rattle.jc_exprs_nodes_spec.specs.Told.{ran};
ghost use Rattle.jc_exprs_nodes.specs.Walks.{IsPart, KindBelow, has, kind_of, known, now};
ghost use Rattle.jc_exprs_settling.specs.Settlings.{IsSettled, settled_of};
ghost use Rattle.jc_exprs_parts_spec.specs.Names.{array_operand};
ghost use Rattle.jc_exprs_worlds.specs.Scenes.{world_of};
ghost use Rattle.jc_judge.specs.Views.{exacts};
ghost use Rattle.jc_stmts_spec.specs.Courses.{each_into, each_iterable, each_of, each_settled, each_type, first_exact, iterable, iterable_operand, iterated};
ghost use Rattle.jc_stmts_wants.specs.Wanting.{SomeElementsBelow, each_by_type, each_converted, each_in_view, has_elements};

use crate::wanting::push_guarded;
use jc_convert::{Converts, assignment};
use jc_exprs_fields::is_open_type;
use jc_exprs_nodes::{
    Judging, KindAt, Led, Part, Walk, capturing, note, part, push_read_guard, push_steps_by,
    refusal, unconverted,
};
use jc_exprs_settling::{SettledPart, settled};
use jc_exprs_worlds::Scene;
use jc_lub::object;
use jc_rules::WantOfMemory;
use jc_stmts_answers::ElementsAt;
use jc_sub::view;
use jc_typed::{Nodes, StepsNode};
use jc_types::{
    Arg, Base, ClassId, Erased, Table, Ty, arguments, class_named, copy_type, element, erasure,
};
use std::alloc::Global;

// What is gone over: the part, whether it is an array, its operand, and the guards of an element.
#[derive(Clone, Copy, Debug)]
struct Over {
    part: Part,
    is_array: bool,
    of: u32,
    guards: u32,
}

// Elements of a type after capture, which go into the variable by this conversion.
#[tactic(auto, using(jc_typed::proofs::Growing::growing), unfolding(jc_exprs_nodes_spec::specs::Told::ran))]
fn each_by(
    alloc: Global,
    table: &Table,
    walk: &mut Walk,
    over: Over,
    kind: KindAt,
    converts: &Converts,
) -> Result<Option<ElementsAt>, WantOfMemory>
    requires part { IsPart walk.old.nodes over.part }
    requires below { (over.of < length walk.old.nodes) × (over.guards < length walk.old.nodes) }
    requires kind { KindBelow (length walk.old.nodes) (Some kind) }
    ensures state { OnOk result ((ran (each_converted table.now walk.old.env.bounds (known walk.old.nodes over.part.at) over.is_array (operand_of walk.old.nodes over.of) (steps_of walk.old.nodes over.guards) (kind_of walk.old.nodes kind) converts.now) (now walk.old)).state ≡ now walk.new) }
    ensures value { IfOk result (λ e. (ran (each_converted table.now walk.old.env.bounds (known walk.old.nodes over.part.at) over.is_array (operand_of walk.old.nodes over.of) (steps_of walk.old.nodes over.guards) (kind_of walk.old.nodes kind) converts.now) (now walk.old)).has ≡ has_elements walk.new.nodes e) }
    ensures below { IfOk result (λ e. SomeElementsBelow (length walk.new.nodes) e) }
    ensures grows { Grows walk.old.nodes walk.new.nodes }
{
    if let Some(break_of) = unconverted(607, over.part.start, converts) {
        note(walk, break_of);
        return Ok(None);
    }
    let judging = Judging {
        table,
        env: &walk.env,
    };
    let before = Led {
        steps: over.guards,
        ty: kind.ty,
    };
    let steps = push_steps_by(alloc, &mut walk.nodes, &judging, before, converts)?;
    Ok(Some(ElementsAt {
        is_array: over.is_array,
        of: over.of,
        ty: kind.ty,
        captures: kind.captures,
        steps,
    }))
}

// Elements of a type after capture: 607 where they don't go into the variable by assignment.
#[tactic(auto, using(jc_typed::proofs::Growing::growing), unfolding(jc_exprs_nodes_spec::specs::Told::ran))]
fn each_into(
    alloc: Global,
    table: &Table,
    walk: &mut Walk,
    over: Over,
    to: &Ty,
    kind: KindAt,
) -> Result<Option<ElementsAt>, WantOfMemory>
    requires part { IsPart walk.old.nodes over.part }
    requires below { (over.of < length walk.old.nodes) × (over.guards < length walk.old.nodes) }
    requires kind { KindBelow (length walk.old.nodes) (Some kind) }
    ensures state { OnOk result ((ran (each_into table.now (known walk.old.nodes over.part.at) over.is_array (operand_of walk.old.nodes over.of) to.now (steps_of walk.old.nodes over.guards) (kind_of walk.old.nodes kind)) (now walk.old)).state ≡ now walk.new) }
    ensures value { IfOk result (λ e. (ran (each_into table.now (known walk.old.nodes over.part.at) over.is_array (operand_of walk.old.nodes over.of) to.now (steps_of walk.old.nodes over.guards) (kind_of walk.old.nodes kind)) (now walk.old)).has ≡ has_elements walk.new.nodes e) }
    ensures below { IfOk result (λ e. SomeElementsBelow (length walk.new.nodes) e) }
    ensures grows { Grows walk.old.nodes walk.new.nodes }
{
    let from = walk.nodes.ty(kind.ty);
    let converts = assignment(alloc, table, &walk.env, from, None, to)?;
    each_by(alloc, table, walk, over, kind, &converts)
}

// Elements of a type, which is captured.
#[tactic(auto, using(jc_typed::proofs::Growing::growing, jc_exprs_nodes::proofs::Staying::staying, jc_exprs_nodes_spec::proofs::Runs::runs))]
fn each_of(
    alloc: Global,
    table: &Table,
    walk: &mut Walk,
    over: Over,
    to: &Ty,
    of: &Ty,
) -> Result<Option<ElementsAt>, WantOfMemory>
    requires part { IsPart walk.old.nodes over.part }
    requires below { (over.of < length walk.old.nodes) × (over.guards < length walk.old.nodes) }
    ensures state { OnOk result ((ran (each_of table.now (known walk.old.nodes over.part.at) over.is_array (operand_of walk.old.nodes over.of) to.now (steps_of walk.old.nodes over.guards) of.now) (now walk.old)).state ≡ now walk.new) }
    ensures value { IfOk result (λ e. (ran (each_of table.now (known walk.old.nodes over.part.at) over.is_array (operand_of walk.old.nodes over.of) to.now (steps_of walk.old.nodes over.guards) of.now) (now walk.old)).has ≡ has_elements walk.new.nodes e) }
    ensures below { IfOk result (λ e. SomeElementsBelow (length walk.new.nodes) e) }
    ensures grows { Grows walk.old.nodes walk.new.nodes }
{
    match capturing(alloc, table, walk, over.part.place, of)? {
        None => Ok(None),
        Some(kind) => each_into(alloc, table, walk, over, to, kind),
    }
}

// An array is used as one of its type.
#[tactic(auto, using(jc_typed::proofs::Growing::growing, jc_exprs_nodes::proofs::Staying::staying))]
fn push_array(
    alloc: Global,
    nodes: &mut Nodes,
    judging: &Judging,
    settled: SettledPart,
) -> Result<Over, WantOfMemory>
    requires { IsSettled nodes.old (Some settled) }
    ensures of { IfOk result (λ o. operand_of nodes.new o.of ≡ array_operand judging.now.table.now judging.now.env.now.bounds (settled_of nodes.old settled)) }
    ensures guards { IfOk result (λ o. steps_of nodes.new o.guards ≡ []) }
    ensures over { IfOk result (λ o. (o.part ≡ settled.part) × (o.is_array ≡ true)) }
    ensures below { IfOk result (λ o. (o.of < length nodes.new) × (o.guards < length nodes.new)) }
    ensures grows { Grows nodes.old nodes.new }
{
    let to = erasure(judging.table, judging.env, nodes.ty(settled.ty));
    let guards = nodes.push_steps(StepsNode::Empty)?;
    let of = push_guarded(alloc, nodes, judging, settled.part, to)?;
    Ok(Over {
        part: settled.part,
        is_array: true,
        of,
        guards,
    })
}

fn iterable_class(table: &Table) -> ClassId
    ensures { result ≡ class_named table.now (codes "java.lang.Iterable") }
{
    class_named(table, "java.lang.Iterable")
}

// An Iterable is used as one, and what `next` gives is read as an element.
#[tactic(auto, using(jc_typed::proofs::Growing::growing, jc_exprs_nodes::proofs::Staying::staying))]
fn push_iterable(
    alloc: Global,
    nodes: &mut Nodes,
    judging: &Judging,
    settled: SettledPart,
    element: &Ty,
) -> Result<Over, WantOfMemory>
    requires { IsSettled nodes.old (Some settled) }
    ensures of { IfOk result (λ o. operand_of nodes.new o.of ≡ iterable_operand judging.now.table.now judging.now.env.now.bounds (settled_of nodes.old settled)) }
    ensures guards { IfOk result (λ o. steps_of nodes.new o.guards ≡ read_guard judging.now.table.now judging.now.env.now.bounds erased_object element.now) }
    ensures over { IfOk result (λ o. (o.part ≡ settled.part) × (o.is_array ≡ false)) }
    ensures below { IfOk result (λ o. (o.of < length nodes.new) × (o.guards < length nodes.new)) }
    ensures grows { Grows nodes.old nodes.new }
{
    let to = Erased {
        base: Base::Class(iterable_class(judging.table)),
        dims: 0,
    };
    let object = Erased {
        base: Base::Class(ClassId(0)),
        dims: 0,
    };
    let guards = push_read_guard(alloc, nodes, judging, object, element)?;
    let of = push_guarded(alloc, nodes, judging, settled.part, to)?;
    Ok(Over {
        part: settled.part,
        is_array: false,
        of,
        guards,
    })
}

// The first argument that is no wildcard, and Object where there is none.
#[tactic(auto, using(jc_types::proofs::Opened::opened))]
fn first_exact(alloc: Global, args: &[Arg]) -> Result<Ty, WantOfMemory>
    ensures { IfOk result (λ r. r ≡ first_exact (exacts args.now)) }
{
    let mut rest = args;
    while let [arg, more @ ..] = rest {
        if let Arg::Exact(ty) = arg {
            return copy_type(alloc, ty);
        }
        rest = more;
    }
    Ok(object(alloc))
}

// X of Iterable<X>, and Object of the raw type.
fn iterated(alloc: Global, table: &Table, view: &Ty) -> Result<Ty, WantOfMemory>
    ensures { IfOk result (λ r. r ≡ iterated table.now view.now) }
{
    match arguments(table, view) {
        None => Ok(object(alloc)),
        Some(args) => first_exact(alloc, args),
    }
}

// Elements of an array.
#[tactic(auto, using(jc_typed::proofs::Growing::growing, jc_exprs_nodes::proofs::Staying::staying, jc_exprs_worlds::proofs::Told::worlds))]
fn each_in_array(
    alloc: Global,
    scene: &Scene,
    walk: &mut Walk,
    settled: SettledPart,
    to: &Ty,
    of: &Ty,
) -> Result<Option<ElementsAt>, WantOfMemory>
    requires { IsSettled walk.old.nodes (Some settled) }
    ensures state { OnOk result ((ran (each_settled (world_of scene.now) walk.old.env.bounds (settled_of walk.old.nodes settled) to.now (Some of.now)) (now walk.old)).state ≡ now walk.new) }
    ensures value { IfOk result (λ e. (ran (each_settled (world_of scene.now) walk.old.env.bounds (settled_of walk.old.nodes settled) to.now (Some of.now)) (now walk.old)).has ≡ has_elements walk.new.nodes e) }
    ensures below { IfOk result (λ e. SomeElementsBelow (length walk.new.nodes) e) }
    ensures grows { Grows walk.old.nodes walk.new.nodes }
{
    let judging = Judging {
        table: scene.table,
        env: &walk.env,
    };
    let over = push_array(alloc, &mut walk.nodes, &judging, settled)?;
    each_of(alloc, scene.table, walk, over, to, of)
}

// Elements of an Iterable, seen as that.
#[tactic(auto, using(jc_typed::proofs::Growing::growing, jc_exprs_nodes::proofs::Staying::staying))]
fn each_in_view(
    alloc: Global,
    table: &Table,
    walk: &mut Walk,
    settled: SettledPart,
    to: &Ty,
    view: &Ty,
) -> Result<Option<ElementsAt>, WantOfMemory>
    requires { IsSettled walk.old.nodes (Some settled) }
    ensures state { OnOk result ((ran (each_in_view table.now walk.old.env.bounds (settled_of walk.old.nodes settled) to.now view.now) (now walk.old)).state ≡ now walk.new) }
    ensures value { IfOk result (λ e. (ran (each_in_view table.now walk.old.env.bounds (settled_of walk.old.nodes settled) to.now view.now) (now walk.old)).has ≡ has_elements walk.new.nodes e) }
    ensures below { IfOk result (λ e. SomeElementsBelow (length walk.new.nodes) e) }
    ensures grows { Grows walk.old.nodes walk.new.nodes }
{
    let of = iterated(alloc, table, view)?;
    let judging = Judging {
        table,
        env: &walk.env,
    };
    let over = push_iterable(alloc, &mut walk.nodes, &judging, settled, &of)?;
    each_of(alloc, table, walk, over, to, &of)
}

// .. whose method `iterator` may be called: 618 where the type may not be named there (JLS 6.6.1).
#[tactic(auto, using(jc_typed::proofs::Growing::growing, jc_exprs_worlds::proofs::Told::worlds), unfolding(jc_exprs_nodes_spec::specs::Told::ran))]
fn each_in_open(
    alloc: Global,
    scene: &Scene,
    walk: &mut Walk,
    settled: SettledPart,
    to: &Ty,
    view: &Ty,
) -> Result<Option<ElementsAt>, WantOfMemory>
    requires { IsSettled walk.old.nodes (Some settled) }
    ensures state { OnOk result ((ran (each_iterable (world_of scene.now) walk.old.env.bounds (settled_of walk.old.nodes settled) to.now (Some view.now)) (now walk.old)).state ≡ now walk.new) }
    ensures value { IfOk result (λ e. (ran (each_iterable (world_of scene.now) walk.old.env.bounds (settled_of walk.old.nodes settled) to.now (Some view.now)) (now walk.old)).has ≡ has_elements walk.new.nodes e) }
    ensures below { IfOk result (λ e. SomeElementsBelow (length walk.new.nodes) e) }
    ensures grows { Grows walk.old.nodes walk.new.nodes }
{
    if !is_open_type(scene, walk.nodes.ty(settled.ty)) {
        note(walk, refusal(618, settled.part.place));
        return Ok(None);
    }
    each_in_view(alloc, scene.table, walk, settled, to, view)
}

// Elements of what is no array: 617 where it is no Iterable either.
#[tactic(auto, using(jc_typed::proofs::Growing::growing, jc_exprs_worlds::proofs::Told::worlds), unfolding(jc_exprs_nodes_spec::specs::Told::ran))]
fn each_iterable(
    alloc: Global,
    scene: &Scene,
    walk: &mut Walk,
    settled: SettledPart,
    to: &Ty,
) -> Result<Option<ElementsAt>, WantOfMemory>
    requires { IsSettled walk.old.nodes (Some settled) }
    ensures state { OnOk result ((ran (each_iterable (world_of scene.now) walk.old.env.bounds (settled_of walk.old.nodes settled) to.now (iterable scene.now.table.now (type_of walk.old.nodes settled.ty))) (now walk.old)).state ≡ now walk.new) }
    ensures value { IfOk result (λ e. (ran (each_iterable (world_of scene.now) walk.old.env.bounds (settled_of walk.old.nodes settled) to.now (iterable scene.now.table.now (type_of walk.old.nodes settled.ty))) (now walk.old)).has ≡ has_elements walk.new.nodes e) }
    ensures below { IfOk result (λ e. SomeElementsBelow (length walk.new.nodes) e) }
    ensures grows { Grows walk.old.nodes walk.new.nodes }
{
    let class = iterable_class(scene.table);
    match view(alloc, scene.table, class, walk.nodes.ty(settled.ty))? {
        None => {
            note(walk, refusal(617, settled.part.place));
            Ok(None)
        }
        Some(seen) => each_in_open(alloc, scene, walk, settled, to, &seen),
    }
}

// Elements of a settled expression.
#[tactic(auto, using(jc_typed::proofs::Growing::growing, jc_exprs_worlds::proofs::Told::worlds), unfolding(jc_exprs_nodes_spec::specs::Told::ran))]
fn each_type(
    alloc: Global,
    scene: &Scene,
    walk: &mut Walk,
    settled: SettledPart,
    to: &Ty,
) -> Result<Option<ElementsAt>, WantOfMemory>
    requires { IsSettled walk.old.nodes (Some settled) }
    ensures state { OnOk result ((ran (each_type (world_of scene.now) to.now (settled_of walk.old.nodes settled)) (now walk.old)).state ≡ now walk.new) }
    ensures value { IfOk result (λ e. (ran (each_type (world_of scene.now) to.now (settled_of walk.old.nodes settled)) (now walk.old)).has ≡ has_elements walk.new.nodes e) }
    ensures below { IfOk result (λ e. SomeElementsBelow (length walk.new.nodes) e) }
    ensures grows { Grows walk.old.nodes walk.new.nodes }
{
    match element(alloc, walk.nodes.ty(settled.ty))? {
        Some(of) => each_in_array(alloc, scene, walk, settled, to, &of),
        None => each_iterable(alloc, scene, walk, settled, to),
    }
}

// Elements of an expression.
#[tactic(auto, using(jc_typed::proofs::Growing::growing, jc_exprs_nodes_spec::proofs::Runs::runs, jc_exprs_worlds::proofs::Told::worlds))]
fn each_part(
    alloc: Global,
    scene: &Scene,
    walk: &mut Walk,
    part: Part,
    to: &Ty,
) -> Result<Option<ElementsAt>, WantOfMemory>
    requires { IsPart walk.old.nodes part }
    ensures state { OnOk result ((ran (each_by_type (world_of scene.now) to.now (known walk.old.nodes part.at)) (now walk.old)).state ≡ now walk.new) }
    ensures value { IfOk result (λ e. (ran (each_by_type (world_of scene.now) to.now (known walk.old.nodes part.at)) (now walk.old)).has ≡ has_elements walk.new.nodes e) }
    ensures below { IfOk result (λ e. SomeElementsBelow (length walk.new.nodes) e) }
    ensures grows { Grows walk.old.nodes walk.new.nodes }
{
    match settled(alloc, scene.table, walk, part)? {
        None => Ok(None),
        Some(of) => each_type(alloc, scene, walk, of, to),
    }
}

/// What an enhanced `for` goes over with a variable of this type, where the walk has a typing of it: 617 at what is neither an array nor an Iterable, 618 at an Iterable whose type may not be named there, 607 where an
/// element doesn't go into the variable by assignment, 624 where two unrelated classes meet.
pub fn each(
    alloc: Global,
    scene: &Scene,
    walk: &mut Walk,
    to: &Ty,
    at: u32,
) -> Result<Option<ElementsAt>, WantOfMemory>
    requires { at < length walk.old.nodes }
    ensures state { OnOk result ((gated (each_by_type (world_of scene.now) to.now) (has walk.old.nodes at) (now walk.old)).state ≡ now walk.new) }
    ensures value { IfOk result (λ e. (gated (each_by_type (world_of scene.now) to.now) (has walk.old.nodes at) (now walk.old)).has ≡ has_elements walk.new.nodes e) }
    ensures below { IfOk result (λ e. SomeElementsBelow (length walk.new.nodes) e) }
    ensures grows { Grows walk.old.nodes walk.new.nodes }
{
    match part(&walk.nodes, at) {
        None => Ok(None),
        Some(part) => each_part(alloc, scene, walk, part, to),
    }
}
