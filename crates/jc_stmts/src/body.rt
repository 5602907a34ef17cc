//! A body's typing, or the least of the rules that are broken in it.
ghost use Rattle.std.specs.Prelude.{◌≡◌, IfErr, IfOk, length};
ghost use Rattle.jc_exprs_nodes.specs.Walks.{now};
ghost use Rattle.jc_stmts_course.specs.Steps.{broken_more};
ghost use Rattle.jc_stmts_spec.specs.Typed.{IsBody, cycle_at, cycle_breaks, early_world, leads, place_in};
ghost use Rattle.jc_stmts_whole.specs.Parts.{IsWithin};
ghost use Rattle.jc_stmts_whole.specs.Programs.{IsProgram, heads_in, knowledge_in};
ghost use Rattle.jc_stmts.specs.Stops.{IsBodyStop, IsFoundStop, IsTyped};
ghost use Rattle.jc_stmts.specs.Targets.{AreThisCalls, next_of};

use crate::calls::{ThisCalls, leads, next_of};
use jc_entering::entry_checks;
use jc_exprs_nodes::{Walk, note, refusal};
use jc_exprs_worlds::class_file;
use jc_members::owner;
use jc_rules::{Place, Refusal, Stop};
use jc_stmts_bodies::{Begins, MethodBody};
use jc_stmts_course::Course;
use jc_stmts_whole::{Program, Whole, check_whole};
use jc_typed::TypedMethod;
use jc_types::MethodId;
use std::alloc::Global;

// The place of an offset of the file of a method's class.
fn place_in(program: &Program, method: MethodId, offset: u32) -> Place
    ensures { result ≡ place_in (early_world program.now.table.now (heads_in program.now) (knowledge_in program.now) method) offset }
{
    let class = owner(program.table, method);
    Place {
        file: class_file(program.names.declared.heads, class.0),
        at: offset,
    }
}

// 620 at the call of a constructor by `this` that is on a cycle of such calls.
fn note_call(program: &Program, calls: &ThisCalls, walk: &mut Walk, method: MethodId, offset: u32)
    ensures state { broken_more (now walk.old) (cycle_at (place_in (early_world program.now.table.now (heads_in program.now) (knowledge_in program.now) method) offset) (leads (next_of calls.now) (length calls.now.calls.now) (next_of calls.now method) method)) ≡ now walk.new }
    ensures nodes { walk.new.nodes ≡ walk.old.nodes }
{
    if !leads(calls, next_of(calls, method), method) {
        return;
    }
    note(walk, refusal(620, place_in(program, method, offset)));
}

// .. where the body begins with one.
fn note_cycle(program: &Program, calls: &ThisCalls, walk: &mut Walk, body: &MethodBody)
    requires { AreThisCalls program.now.table.now (heads_in program.now) (knowledge_in program.now) calls.now }
    ensures state { broken_more (now walk.old) (cycle_breaks program.now.table.now (heads_in program.now) (knowledge_in program.now) calls.now.calls.now body.now body.now.begins) ≡ now walk.new }
    ensures nodes { walk.new.nodes ≡ walk.old.nodes }
{
    match body.begins {
        Begins::WithThis { at: offset, .. } => note_call(program, calls, walk, body.method, offset),
        Begins::WithSuper { .. } => {}
        Begins::WithImplied => {}
        Begins::WithNone => {}
    }
}

// The typed method of a body, or what is broken in it.
fn typed_method(
    alloc: Global,
    program: &Program,
    method: MethodId,
    whole: Whole,
) -> Result<TypedMethod, Stop<Refusal>>
    requires program { IsProgram program.now }
    requires within { IsWithin whole }
    ensures typed { IfOk result (λ m. IsTyped program.now.table.now method whole m) }
    ensures refused { IfErr result (λ stop. IsFoundStop whole.course.walk.found stop) }
{
    let entry_checks = entry_checks(alloc, program.table, program.index, method)?;
    let Whole { course, body } = whole;
    let Course {
        locals: _locals,
        all,
        scopes: _scopes,
        caught: _caught,
        walk,
        answers: _answers,
    } = course;
    let Walk { env, found, nodes } = walk;
    match found {
        Some(refusal) => Err(Stop::Refused(refusal)),
        None => Ok(TypedMethod {
            id: method,
            locals: all,
            captured: env,
            nodes,
            body: Some(body),
            entry_checks,
        }),
    }
}

// With 620 where the body begins with a call by `this` that is on a cycle.
fn noted(program: &Program, calls: &ThisCalls, body: &MethodBody, whole: Whole) -> Whole
    requires calls { AreThisCalls program.now.table.now (heads_in program.now) (knowledge_in program.now) calls.now }
    requires within { IsWithin whole }
    ensures state { broken_more (now whole.course.walk) (cycle_breaks program.now.table.now (heads_in program.now) (knowledge_in program.now) calls.now.calls.now body.now body.now.begins) ≡ now result.course.walk }
    ensures nodes { result.course.walk.nodes ≡ whole.course.walk.nodes }
    ensures all { result.course.all ≡ whole.course.all }
    ensures body { result.body ≡ whole.body }
    ensures within { IsWithin result }
{
    let Whole {
        course,
        body: parts,
    } = whole;
    let mut course = course;
    note_cycle(program, calls, &mut course.walk, body);
    Whole {
        course,
        body: parts,
    }
}

/// The typed method of a body, or the least of the rules that are broken in it. `calls` tells what the constructors of its class call by `this`.
pub fn check_body(
    alloc: Global,
    program: &Program,
    calls: &ThisCalls,
    body: &MethodBody,
) -> Result<TypedMethod, Stop<Refusal>>
    requires program { IsProgram program.now }
    requires calls { AreThisCalls program.now.table.now (heads_in program.now) (knowledge_in program.now) calls.now }
    ensures typed { IfOk result (λ m. IsBody program.now.table.now (heads_in program.now) (knowledge_in program.now) calls.now.calls.now body.now m) }
    ensures refused { IfErr result (λ stop. IsBodyStop program.now.table.now (heads_in program.now) (knowledge_in program.now) calls.now.calls.now body.now stop) }
{
    let whole = check_whole(alloc, program, body)?;
    let checked = noted(program, calls, body, whole);
    typed_method(alloc, program, body.method, checked)
}
