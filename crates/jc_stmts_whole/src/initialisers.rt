//! The initialisers of fields, and blocks that are initialisers (JLS 8.3.2, 8.6, 8.7).
ghost use Rattle.std.specs.Prelude.{◌≡◌, ◌<◌, [], IfOk, OnOk, length, slice_get};
ghost use Rattle.jc_members.specs.Named.{IsMethodIndex};
ghost use Rattle.jc_typed.specs.Parts.{Grows, operand_of};
ghost use Rattle.jc_typed.specs.Trees.{NoStmts};
ghost use Rattle.jc_exprs_nodes_spec.specs.Told.{ran};
ghost use Rattle.jc_exprs_nodes.specs.Walks.{now};
ghost use Rattle.jc_exprs_gathering.specs.Gathered.{has_operand};
ghost use Rattle.jc_exprs_parts_spec.specs.Fields.{declared_field};
ghost use Rattle.jc_exprs_spec.specs.Typing.{initialised};
ghost use Rattle.jc_exprs_worlds.specs.Scenes.{IsWorldly, world_of};
ghost use Rattle.jc_stmts_spec.specs.Bodies.{OfBlock, OfField};
ghost use Rattle.jc_stmts_spec.specs.Courses.{Course as Counted};
ghost use Rattle.jc_stmts_spec.specs.Typed.{Parts, field_place_in, initialised_all, initialised_more, operand_or};
ghost use Rattle.jc_stmts_course.specs.Nows.{IsCourse, stage};
ghost use Rattle.jc_stmts_course.specs.Steps.{seen};
ghost use Rattle.jc_stmts_whole.specs.Parts.{IsParts, field_run, run_on};
ghost use Rattle.jc_stmts_whole.specs.Programs.{IsProgram, heads_in, knowledge_in};

use crate::blocks::{go_through_block, push_block};
use crate::lists::{no_stmts, push_behind, push_stmt};
use crate::spots::{Side, block_setting, field_scene};
use jc_exprs::initialised;
use jc_exprs_calls::Methods;
use jc_exprs_fields::declared_field;
use jc_exprs_locals::Locals;
use jc_exprs_nodes::Walk;
use jc_exprs_worlds::class_file;
use jc_rules::{Place, WantOfMemory};
use jc_stmts_assembling::Assembling;
use jc_stmts_bodies::{Initialiser, InitialiserForm};
use jc_stmts_course::Course;
use jc_stmts_first::reopen;
use jc_stmts_plan::{Jumps, Returns};
use jc_tree::{Init, Stmt};
use jc_typed::{StmtForm, StmtNode};
use jc_types::{FieldId, Table, field_at};
use std::alloc::Global;

fn field_place(table: &Table, field: FieldId) -> Place
    ensures { result ≡ field_place_in (slice_get table.now.fields field.0) }
{
    match field_at(table, field) {
        Some(declaration) => declaration.place,
        None => Place { file: 0, at: 0 },
    }
}

// The value of a field's initialiser.
#[tactic(auto, using(jc_typed::proofs::Growing::growing))]
fn value_of(
    alloc: Global,
    methods: &Methods,
    walk: &mut Walk,
    field: FieldId,
    init: &Init,
) -> Result<u32, WantOfMemory>
    requires index { IsMethodIndex methods.now.scene.now.table.now methods.now.index.now }
    requires scene { IsWorldly methods.now.scene.now }
    ensures state { OnOk result ((ran (initialised (world_of methods.now.scene.now) (declared_field methods.now.scene.now.table.now field) init.now) (now walk.old)).state ≡ now walk.new) }
    ensures value { IfOk result (λ at. (ran (initialised (world_of methods.now.scene.now) (declared_field methods.now.scene.now.table.now field) init.now) (now walk.old)).has ≡ has_operand walk.new.nodes at) }
    ensures within { IfOk result (λ at. at < length walk.new.nodes) }
    ensures grows { Grows walk.old.nodes walk.new.nodes }
{
    let ty = walk
        .nodes
        .push_type(declared_field(alloc, methods.scene.table, field)?)?;
    initialised(alloc, methods, walk, ty, init)
}

// .. where the walk has gone through it.
#[tactic(auto, using(jc_typed::proofs::Growing::growing))]
fn go_through_value(
    alloc: Global,
    methods: &Methods,
    course: &mut Course,
    field: FieldId,
    init: &Init,
) -> Result<u32, WantOfMemory>
    requires index { IsMethodIndex methods.now.scene.now.table.now methods.now.index.now }
    requires scene { IsWorldly methods.now.scene.now }
    requires course { IsCourse course.old }
    ensures stage { OnOk result ((c : Counted) → seen c ≡ stage course.old → seen (run_on (initialised (world_of methods.now.scene.now) (declared_field methods.now.scene.now.table.now field) init.now) c) ≡ stage course.new) }
    ensures value { IfOk result (λ at. (c : Counted) → seen c ≡ stage course.old → operand_or (initialised (world_of methods.now.scene.now) (declared_field methods.now.scene.now.table.now field) init.now c.env).told ≡ operand_of course.new.walk.nodes at) }
    ensures within { IfOk result (λ at. at < length course.new.walk.nodes) }
    ensures course { OnOk result (IsCourse course.new) }
    ensures grows { OnOk result (Grows course.old.walk.nodes course.new.walk.nodes) }
{
    value_of(alloc, methods, &mut course.walk, field, init)
}

// .. in an initialiser of the class, with no locals in scope.
fn go_through_field(
    alloc: Global,
    side: &Side,
    locals: &Locals,
    course: &mut Course,
    field: FieldId,
    init: &Init,
) -> Result<u32, WantOfMemory>
    requires program { IsProgram side.now.program }
    requires locals { locals.now ≡ [] }
    requires course { IsCourse course.old }
    ensures stage { OnOk result ((c : Counted) → seen c ≡ stage course.old → seen (run_on (field_run side.now.program.table.now (heads_in side.now.program) (knowledge_in side.now.program) side.now.class side.now.is_static field init.now) c) ≡ stage course.new) }
    ensures value { IfOk result (λ at. (c : Counted) → seen c ≡ stage course.old → operand_or (field_run side.now.program.table.now (heads_in side.now.program) (knowledge_in side.now.program) side.now.class side.now.is_static field init.now c.env).told ≡ operand_of course.new.walk.nodes at) }
    ensures within { IfOk result (λ at. at < length course.new.walk.nodes) }
    ensures course { OnOk result (IsCourse course.new) }
    ensures grows { OnOk result (Grows course.old.walk.nodes course.new.walk.nodes) }
{
    let scene = field_scene(side, field, locals);
    let methods = Methods {
        scene: &scene,
        index: side.program.index,
    };
    go_through_value(alloc, &methods, course, field, init)
}

// The initialiser of a field, behind those of a list.
#[tactic(auto, using(jc_typed::proofs::Growing::growing))]
fn push_field(
    alloc: Global,
    side: &Side,
    course: &mut Course,
    list: u32,
    field: FieldId,
    init: &Init,
) -> Result<u32, WantOfMemory>
    requires program { IsProgram side.now.program }
    requires course { IsCourse course.old }
    requires list { list < length course.old.walk.nodes }
    ensures parts { IfOk result (λ at. (p : Parts) → IsParts p course.old list → IsParts (initialised_more side.now.program.table.now (heads_in side.now.program) (knowledge_in side.now.program) side.now.class side.now.is_static (OfField field init.now) p) course.new at) }
    ensures within { IfOk result (λ at. at < length course.new.walk.nodes) }
    ensures course { OnOk result (IsCourse course.new) }
    ensures grows { OnOk result (Grows course.old.walk.nodes course.new.walk.nodes) }
{
    let locals = Locals::new(alloc);
    let value = go_through_field(alloc, side, &locals, course, field, init)?;
    let place = field_place(side.program.table, field);
    let form = StmtForm::Initialise { field, value };
    let last = push_stmt(course, StmtNode { place, form })?;
    push_behind(course, list, last)
}

// A block that is an initialiser, behind those of a list.
#[tactic(auto, using(jc_typed::proofs::Growing::growing))]
fn push_block_at<'a>(
    alloc: Global,
    side: &Side,
    course: &mut Course,
    list: u32,
    at: u32,
    stmts: &'a [Stmt],
) -> Result<u32, WantOfMemory>
    requires program { IsProgram side.now.program }
    requires course { IsCourse course.old }
    requires list { list < length course.old.walk.nodes }
    ensures parts { IfOk result (λ r. (p : Parts) → IsParts p course.old list → IsParts (initialised_more side.now.program.table.now (heads_in side.now.program) (knowledge_in side.now.program) side.now.class side.now.is_static (OfBlock at stmts.now) p) course.new r) }
    ensures within { IfOk result (λ r. r < length course.new.walk.nodes) }
    ensures course { OnOk result (IsCourse course.new) }
    ensures grows { OnOk result (Grows course.old.walk.nodes course.new.walk.nodes) }
{
    reopen(alloc, course, Locals::new(alloc));
    let setting = block_setting(side);
    let jumps = Jumps::new(alloc, Returns::Never);
    go_through_block(alloc, &setting, course, &jumps, stmts)?;
    let file = class_file(side.program.names.declared.heads, side.class.0);
    let scene = Assembling {
        alloc,
        file,
        jumps: &jumps,
    };
    let last = push_block(scene, course, Place { file, at }, stmts)?;
    push_behind(course, list, last)
}

// An initialiser, behind those of a list.
fn push_initialiser(
    alloc: Global,
    side: &Side,
    course: &mut Course,
    list: u32,
    initialiser: &Initialiser,
) -> Result<u32, WantOfMemory>
    requires program { IsProgram side.now.program }
    requires course { IsCourse course.old }
    requires list { list < length course.old.walk.nodes }
    ensures parts { IfOk result (λ at. (p : Parts) → IsParts p course.old list → IsParts (initialised_more side.now.program.table.now (heads_in side.now.program) (knowledge_in side.now.program) side.now.class side.now.is_static initialiser.now p) course.new at) }
    ensures within { IfOk result (λ at. at < length course.new.walk.nodes) }
    ensures course { OnOk result (IsCourse course.new) }
    ensures grows { OnOk result (Grows course.old.walk.nodes course.new.walk.nodes) }
{
    match initialiser.form {
        InitialiserForm::OfField(field, init) => push_field(alloc, side, course, list, field, init),
        InitialiserForm::OfBlock { at, items } => {
            push_block_at(alloc, side, course, list, at, items)
        }
    }
}

// Initialisers one after the other, behind those of a list.
#[tactic(auto, using(jc_typed::proofs::Growing::growing))]
fn push_initialisers(
    alloc: Global,
    side: &Side,
    course: &mut Course,
    list: u32,
    initialisers: &[Initialiser],
) -> Result<u32, WantOfMemory>
    requires program { IsProgram side.now.program }
    requires course { IsCourse course.old }
    requires list { list < length course.old.walk.nodes }
    ensures parts { IfOk result (λ at. (p : Parts) → IsParts p course.old list → IsParts (initialised_all side.now.program.table.now (heads_in side.now.program) (knowledge_in side.now.program) side.now.class side.now.is_static initialisers.now p) course.new at) }
    ensures within { IfOk result (λ at. at < length course.new.walk.nodes) }
    ensures course { OnOk result (IsCourse course.new) }
    ensures grows { OnOk result (Grows course.old.walk.nodes course.new.walk.nodes) }
{
    let mut behind = list;
    let mut rest = initialisers;
    while let [next, more @ ..] = rest {
        behind = push_initialiser(alloc, side, course, behind, next)?;
        rest = more;
    }
    Ok(behind)
}

/// The initialisers of a class: what was seen of the definition's state before them is seen of its state behind them. Tells the list of their statements in the arena.
#[tactic(auto, using(jc_typed::proofs::Growing::growing))]
pub fn initialise(
    alloc: Global,
    side: &Side,
    course: &mut Course,
    initialisers: &[Initialiser],
) -> Result<u32, WantOfMemory>
    requires program { IsProgram side.now.program }
    requires course { IsCourse course.old }
    ensures parts { IfOk result (λ at. (c : Counted) → seen c ≡ stage course.old → IsParts (initialised_all side.now.program.table.now (heads_in side.now.program) (knowledge_in side.now.program) side.now.class side.now.is_static initialisers.now (record { course = c; stmts = NoStmts })) course.new at) }
    ensures within { IfOk result (λ at. at < length course.new.walk.nodes) }
    ensures course { OnOk result (IsCourse course.new) }
    ensures grows { OnOk result (Grows course.old.walk.nodes course.new.walk.nodes) }
{
    let none = no_stmts(course)?;
    push_initialisers(alloc, side, course, none, initialisers)
}
