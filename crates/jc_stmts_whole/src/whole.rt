//! The parts of a body, one after the other.
ghost use Rattle.std.specs.Prelude.{◌≡◌, ◌<◌, None, IfOk, OnOk, length};
ghost use Rattle.jc_types.specs.Accessors.{result_of};
ghost use Rattle.jc_typed.specs.Parts.{Grows, stmt_of, stmts_of};
ghost use Rattle.jc_stmts_spec.specs.Courses.{Course as Counted};
ghost use Rattle.jc_exprs_locals.specs.Scoped.{locals_of};
ghost use Rattle.jc_stmts_plan.specs.Seen.{returns_seen};
ghost use Rattle.jc_stmts_spec.specs.Typed.{begun, param_scope, rest_course, rest_stmt, returns_of, whole};
ghost use Rattle.jc_stmts_course.specs.Nows.{IsCourse, stage};
ghost use Rattle.jc_stmts_course.specs.Steps.{seen};
ghost use Rattle.jc_stmts_whole.specs.Parts.{IsWhole, IsWithin};
ghost use Rattle.jc_stmts_whole.specs.Programs.{IsProgram, heads_in, knowledge_in};

use crate::blocks::{go_through_block, push_block};
use crate::initialisers::initialise;
use crate::program::Program;
use crate::spots::{Side, early_scene, method_setting};
use jc_exprs_calls::Methods;
use jc_exprs_locals::Locals;
use jc_members::{is_static, owner};
use jc_rules::WantOfMemory;
use jc_stmts_assembling::Assembling;
use jc_stmts_bodies::MethodBody;
use jc_stmts_course::Course;
use jc_stmts_first::{begin, first_course, method_place, param_scope, reopen};
use jc_stmts_plan::{Jumps, Returns};
use jc_typed::Body;
use jc_types::{MethodId, Table, method_result};
use std::alloc::Global;

/// The state behind a body, and the places of its statements in the arena. As long as nothing is broken they are the body's.
#[derive(Drop)]
pub struct Whole {
    pub course: Course,
    pub body: Body,
}

// The call that a constructor begins with, among its parameters.
fn begin_among(
    alloc: Global,
    program: &Program,
    locals: &Locals,
    course: &mut Course,
    body: &MethodBody,
) -> Result<u32, WantOfMemory>
    requires program { IsProgram program.now }
    requires locals { locals_of locals.now ≡ param_scope program.now.table.now body.now.method }
    requires course { IsCourse course.old }
    ensures stage { OnOk result ((c : Counted) → seen c ≡ stage course.old → seen (begun program.now.table.now (heads_in program.now) (knowledge_in program.now) body.now c).course ≡ stage course.new) }
    ensures stmts { IfOk result (λ list. (c : Counted) → seen c ≡ stage course.old → (begun program.now.table.now (heads_in program.now) (knowledge_in program.now) body.now c).stmts ≡ stmts_of course.new.walk.nodes list) }
    ensures within { IfOk result (λ list. list < length course.new.walk.nodes) }
    ensures course { OnOk result (IsCourse course.new) }
    ensures grows { OnOk result (Grows course.old.walk.nodes course.new.walk.nodes) }
{
    let scene = early_scene(program, body.method, locals);
    let methods = Methods {
        scene: &scene,
        index: program.index,
    };
    let place = method_place(program.table, body.method);
    begin(alloc, &methods, course, place, &body.begins)
}

// The call that a constructor begins with.
fn go_through_call(
    alloc: Global,
    program: &Program,
    course: &mut Course,
    body: &MethodBody,
) -> Result<u32, WantOfMemory>
    requires program { IsProgram program.now }
    requires course { IsCourse course.old }
    ensures stage { OnOk result ((c : Counted) → seen c ≡ stage course.old → seen (begun program.now.table.now (heads_in program.now) (knowledge_in program.now) body.now c).course ≡ stage course.new) }
    ensures stmts { IfOk result (λ list. (c : Counted) → seen c ≡ stage course.old → (begun program.now.table.now (heads_in program.now) (knowledge_in program.now) body.now c).stmts ≡ stmts_of course.new.walk.nodes list) }
    ensures within { IfOk result (λ list. list < length course.new.walk.nodes) }
    ensures course { OnOk result (IsCourse course.new) }
    ensures grows { OnOk result (Grows course.old.walk.nodes course.new.walk.nodes) }
{
    let locals = param_scope(alloc, program.table, body.method)?;
    begin_among(alloc, program, &locals, course, body)
}

// What a `return` of the method may give.
fn returns_of(table: &Table, method: MethodId) -> Returns
    ensures { returns_seen result ≡ returns_of (result_of table.now method) }
{
    match method_result(table, method) {
        None => Returns::NoValue,
        Some(_) => Returns::AValue,
    }
}

// The block: its items, and its statement.
#[tactic(auto, using(jc_typed::proofs::Growing::growing))]
fn go_through_rest(
    alloc: Global,
    program: &Program,
    course: &mut Course,
    body: &MethodBody,
) -> Result<u32, WantOfMemory>
    requires program { IsProgram program.now }
    requires course { IsCourse course.old }
    ensures stage { OnOk result ((c : Counted) → seen c ≡ stage course.old → seen (rest_course program.now.table.now (heads_in program.now) (knowledge_in program.now) body.now c) ≡ stage course.new) }
    ensures block { IfOk result (λ at. (c : Counted) → seen c ≡ stage course.old → course.new.walk.found ≡ None → stmt_of course.new.walk.nodes at ≡ rest_stmt program.now.table.now body.now (rest_course program.now.table.now (heads_in program.now) (knowledge_in program.now) body.now c)) }
    ensures within { IfOk result (λ at. at < length course.new.walk.nodes) }
    ensures course { OnOk result (IsCourse course.new) }
    ensures grows { OnOk result (Grows course.old.walk.nodes course.new.walk.nodes) }
{
    let table = program.table;
    let locals = param_scope(alloc, table, body.method)?;
    reopen(alloc, course, locals);
    let setting = method_setting(program, body.method);
    let jumps = Jumps::new(alloc, returns_of(table, body.method));
    go_through_block(alloc, &setting, course, &jumps, body.rest)?;
    let place = method_place(table, body.method);
    let scene = Assembling {
        alloc,
        file: place.file,
        jumps: &jumps,
    };
    push_block(scene, course, place, body.rest)
}

/// A body from its first part to its last: the least of the rules that are broken in it but for cycles of constructors, and its typed statements where none is.
#[tactic(auto, using(jc_typed::proofs::Growing::growing))]
pub fn check_whole(
    alloc: Global,
    program: &Program,
    body: &MethodBody,
) -> Result<Whole, WantOfMemory>
    requires { IsProgram program.now }
    ensures whole { IfOk result (λ w. IsWhole (whole program.now.table.now (heads_in program.now) (knowledge_in program.now) body.now) w) }
    ensures within { IfOk result (λ w. IsWithin w) }
{
    let mut course = first_course(alloc, program.table, body.method)?;
    let call = go_through_call(alloc, program, &mut course, body)?;
    let side = Side {
        program: *program,
        class: owner(program.table, body.method),
        is_static: is_static(program.table, body.method),
    };
    let initialisers = initialise(alloc, &side, &mut course, body.initialisers.slice())?;
    let rest = go_through_rest(alloc, program, &mut course, body)?;
    let body = Body {
        call,
        initialisers,
        rest,
    };
    Ok(Whole { course, body })
}
