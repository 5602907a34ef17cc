//! The call of another constructor that a constructor begins with (JLS 8.8.7.1).
ghost use Rattle.std.specs.Prelude.{◌≡◌, ◌<◌, IfOk, OnOk, length};
ghost use Rattle.std.specs.Option.{option_copied};
ghost use Rattle.jc_members.specs.Named.{IsMethodIndex};
ghost use Rattle.jc_types.specs.Accessors.{supers_of};
ghost use Rattle.jc_typed.specs.Parts.{Grows, stmts_of};
ghost use Rattle.jc_exprs_nodes_spec.specs.Told.{ran};
ghost use Rattle.jc_exprs_nodes.specs.Walks.{now};
ghost use Rattle.jc_exprs_spec.specs.Typing.{constructed};
ghost use Rattle.jc_exprs_parts_spec.specs.Names.{first_super, super_type};
ghost use Rattle.jc_exprs_parts_spec.specs.Worlds.{this_type};
ghost use Rattle.jc_exprs_calls.specs.Creating.{StmtBelow, has_stmt_form};
ghost use Rattle.jc_exprs_worlds.specs.Scenes.{IsWorldly, world_of};
ghost use Rattle.jc_stmts_spec.specs.Courses.{Course as Counted};
ghost use Rattle.jc_stmts_spec.specs.Typed.{begun_by, begun_place, begun_run, super_called};
ghost use Rattle.jc_stmts_bodies.specs.Seen.{begins_seen};
ghost use Rattle.jc_stmts_course.specs.Nows.{IsCourse, stage, with_walk};
ghost use Rattle.jc_stmts_course.specs.Steps.{seen};
ghost use Rattle.jc_stmts_first.specs.Firsts.{stmts_begun};

use jc_exprs::constructed;
use jc_exprs_calls::Methods;
use jc_exprs_nodes::{Walk, note, refusal};
use jc_exprs_worlds::{Scene, at, this_type};
use jc_rules::{Place, WantOfMemory};
use jc_stmts_bodies::Begins;
use jc_stmts_course::Course;
use jc_tree::Expr;
use jc_typed::{ListNode, Nodes, StmtForm, StmtNode};
use jc_types::{ClassId, Table, Ty, class_supers};
use std::alloc::Global;

fn first_super(table: &Table, class: ClassId) -> Option<&Ty>
    ensures { option_copied result ≡ first_super (supers_of table.now class) }
{
    match class_supers(table, class) {
        [] => None,
        [first, ..] => Some(first),
    }
}

// A constructor of the superclass, if there is one (603).
#[tactic(auto, using(jc_typed::proofs::Growing::growing), unfolding(jc_exprs_nodes_spec::specs::Told::ran))]
fn super_by(
    alloc: Global,
    methods: &Methods,
    walk: &mut Walk,
    place: Place,
    actuals: &[Expr],
    ty: Option<&Ty>,
) -> Result<Option<StmtForm>, WantOfMemory>
    requires index { IsMethodIndex methods.now.scene.now.table.now methods.now.index.now }
    requires scene { IsWorldly methods.now.scene.now }
    ensures state { OnOk result ((ran (super_called (world_of methods.now.scene.now) place actuals.now (option_copied ty.entry)) (now walk.old)).state ≡ now walk.new) }
    ensures value { IfOk result (λ form. (ran (super_called (world_of methods.now.scene.now) place actuals.now (option_copied ty.entry)) (now walk.old)).has ≡ has_stmt_form walk.new.nodes form) }
    ensures within { IfOk result (λ form. StmtBelow (length walk.new.nodes) form) }
    ensures grows { Grows walk.old.nodes walk.new.nodes }
{
    match ty {
        None => {
            note(walk, refusal(603, place));
            Ok(None)
        }
        Some(ty) => constructed(alloc, methods, walk, place, ty, actuals),
    }
}

// .. of the class of the place.
#[tactic(auto, using(jc_exprs_worlds::proofs::Told::worlds))]
fn super_called(
    alloc: Global,
    methods: &Methods,
    walk: &mut Walk,
    place: Place,
    actuals: &[Expr],
) -> Result<Option<StmtForm>, WantOfMemory>
    requires index { IsMethodIndex methods.now.scene.now.table.now methods.now.index.now }
    requires scene { IsWorldly methods.now.scene.now }
    ensures state { OnOk result ((ran (super_called (world_of methods.now.scene.now) place actuals.now (super_type (world_of methods.now.scene.now))) (now walk.old)).state ≡ now walk.new) }
    ensures value { IfOk result (λ form. (ran (super_called (world_of methods.now.scene.now) place actuals.now (super_type (world_of methods.now.scene.now))) (now walk.old)).has ≡ has_stmt_form walk.new.nodes form) }
    ensures within { IfOk result (λ form. StmtBelow (length walk.new.nodes) form) }
    ensures grows { Grows walk.old.nodes walk.new.nodes }
{
    let ty = first_super(methods.scene.table, methods.scene.class);
    super_by(alloc, methods, walk, place, actuals, ty)
}

// A constructor of the class of the place.
fn this_called(
    alloc: Global,
    methods: &Methods,
    walk: &mut Walk,
    place: Place,
    actuals: &[Expr],
) -> Result<Option<StmtForm>, WantOfMemory>
    requires index { IsMethodIndex methods.now.scene.now.table.now methods.now.index.now }
    requires scene { IsWorldly methods.now.scene.now }
    ensures state { OnOk result ((ran (constructed (world_of methods.now.scene.now) place (this_type (world_of methods.now.scene.now)) actuals.now) (now walk.old)).state ≡ now walk.new) }
    ensures value { IfOk result (λ form. (ran (constructed (world_of methods.now.scene.now) place (this_type (world_of methods.now.scene.now)) actuals.now) (now walk.old)).has ≡ has_stmt_form walk.new.nodes form) }
    ensures within { IfOk result (λ form. StmtBelow (length walk.new.nodes) form) }
    ensures grows { Grows walk.old.nodes walk.new.nodes }
{
    let ty = this_type(alloc, methods.scene)?;
    constructed(alloc, methods, walk, place, &ty, actuals)
}

/// Where a call stands: an implied one at the constructor, which stands at `place`.
pub fn begun_place(scene: &Scene, place: Place, begins: &Begins) -> Place
    ensures { result ≡ begun_place (world_of scene.now) place (begins_seen begins.now) }
{
    match *begins {
        Begins::WithThis { at: offset, .. } => at(scene, offset),
        Begins::WithSuper { at: offset, .. } => at(scene, offset),
        Begins::WithImplied => place,
        Begins::WithNone => place,
    }
}

/// The form of the call that a constructor begins with, which stands at `place`: the empty statement where it begins with none.
#[tactic(auto, using(jc_typed::proofs::Growing::growing), unfolding(jc_exprs_nodes_spec::specs::Told::ran))]
pub fn begun_form(
    alloc: Global,
    methods: &Methods,
    walk: &mut Walk,
    place: Place,
    begins: &Begins,
) -> Result<Option<StmtForm>, WantOfMemory>
    requires index { IsMethodIndex methods.now.scene.now.table.now methods.now.index.now }
    requires scene { IsWorldly methods.now.scene.now }
    ensures state { OnOk result ((ran (begun_run (world_of methods.now.scene.now) place (begins_seen begins.now)) (now walk.old)).state ≡ now walk.new) }
    ensures value { IfOk result (λ form. (ran (begun_run (world_of methods.now.scene.now) place (begins_seen begins.now)) (now walk.old)).has ≡ has_stmt_form walk.new.nodes form) }
    ensures within { IfOk result (λ form. StmtBelow (length walk.new.nodes) form) }
    ensures grows { Grows walk.old.nodes walk.new.nodes }
{
    match *begins {
        Begins::WithThis {
            at: offset,
            actuals,
        } => {
            let called = at(methods.scene, offset);
            this_called(alloc, methods, walk, called, actuals)
        }
        Begins::WithSuper {
            at: offset,
            actuals,
        } => {
            let called = at(methods.scene, offset);
            super_called(alloc, methods, walk, called, actuals)
        }
        Begins::WithImplied => super_called(alloc, methods, walk, place, &[]),
        Begins::WithNone => Ok(Some(StmtForm::Empty)),
    }
}

// A list with the statement of a call, or without one.
#[tactic(auto, using(jc_typed::proofs::Growing::growing))]
fn push_call(nodes: &mut Nodes, place: Place, form: StmtForm) -> Result<u32, WantOfMemory>
    requires { StmtBelow (length nodes.old) (Some form) }
    ensures value { IfOk result (λ list. stmts_of nodes.new list ≡ stmts_begun place (has_stmt_form nodes.old (Some form))) }
    ensures within { IfOk result (λ list. list < length nodes.new) }
    ensures grows { Grows nodes.old nodes.new }
{
    let before = nodes.push_stmts(ListNode::Empty)?;
    match form {
        StmtForm::Empty => Ok(before),
        _ => {
            let last = nodes.push_stmt(StmtNode { place, form })?;
            nodes.push_stmts(ListNode::More { before, last })
        }
    }
}

// .. where nothing is broken in it.
#[tactic(auto, using(jc_typed::proofs::Growing::growing))]
fn push_begun(nodes: &mut Nodes, place: Place, form: Option<StmtForm>) -> Result<u32, WantOfMemory>
    requires { StmtBelow (length nodes.old) form }
    ensures value { IfOk result (λ list. stmts_of nodes.new list ≡ stmts_begun place (has_stmt_form nodes.old form)) }
    ensures within { IfOk result (λ list. list < length nodes.new) }
    ensures grows { Grows nodes.old nodes.new }
{
    match form {
        None => nodes.push_stmts(ListNode::Empty),
        Some(form) => push_call(nodes, place, form),
    }
}

// The call in the arena, where the walk has gone through it.
#[tactic(auto, using(jc_typed::proofs::Growing::growing))]
fn begun(
    alloc: Global,
    methods: &Methods,
    walk: &mut Walk,
    place: Place,
    begins: &Begins,
) -> Result<u32, WantOfMemory>
    requires index { IsMethodIndex methods.now.scene.now.table.now methods.now.index.now }
    requires scene { IsWorldly methods.now.scene.now }
    ensures state { OnOk result ((ran (begun_run (world_of methods.now.scene.now) place (begins_seen begins.now)) (now walk.old)).state ≡ now walk.new) }
    ensures value { IfOk result (λ list. stmts_of walk.new.nodes list ≡ stmts_begun (begun_place (world_of methods.now.scene.now) place (begins_seen begins.now)) (ran (begun_run (world_of methods.now.scene.now) place (begins_seen begins.now)) (now walk.old)).has) }
    ensures within { IfOk result (λ list. list < length walk.new.nodes) }
    ensures grows { Grows walk.old.nodes walk.new.nodes }
{
    let form = begun_form(alloc, methods, walk, place, begins)?;
    push_begun(
        &mut walk.nodes,
        begun_place(methods.scene, place, begins),
        form,
    )
}

/// The call that a constructor begins with, which stands at `place`, among the parameters alone: what was seen of the definition's state before it is seen of its state behind it. Tells the list of the call's
/// statement in the arena.
#[tactic(auto, using(jc_typed::proofs::Growing::growing))]
pub fn begin(
    alloc: Global,
    methods: &Methods,
    course: &mut Course,
    place: Place,
    begins: &Begins,
) -> Result<u32, WantOfMemory>
    requires index { IsMethodIndex methods.now.scene.now.table.now methods.now.index.now }
    requires scene { IsWorldly methods.now.scene.now }
    requires course { IsCourse course.old }
    ensures stage { OnOk result ((c : Counted) → seen c ≡ stage course.old → seen (begun_by (world_of methods.now.scene.now) place (begins_seen begins.now) c).course ≡ stage course.new) }
    ensures stmts { IfOk result (λ list. (c : Counted) → seen c ≡ stage course.old → (begun_by (world_of methods.now.scene.now) place (begins_seen begins.now) c).stmts ≡ stmts_of course.new.walk.nodes list) }
    ensures within { IfOk result (λ list. list < length course.new.walk.nodes) }
    ensures course { OnOk result (IsCourse course.new) }
    ensures grows { OnOk result (Grows course.old.walk.nodes course.new.walk.nodes) }
{
    begun(alloc, methods, &mut course.walk, place, begins)
}
