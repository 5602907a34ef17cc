//! The check of each body. It goes from the last body to the first, so that of two with one number the first one counts.
ghost use Rattle.std.specs.Prelude.{◌≡◌, ◌∷◌, [], IfOk, List, None, OnOk, Some, length, replicate, slice_set};
ghost use Rattle.jc_stmts.specs.Targets.{AreThisCalls};
ghost use Rattle.jc_stmts_spec.specs.Bodies.{MethodBody};
ghost use Rattle.jc_stmts_whole.specs.Programs.{IsProgram, heads_in, knowledge_in};
ghost use Rattle.jc_bodies.specs.Slots.{AreChecked};

use jc_rules::{Refusal, Stop, WantOfMemory};
use jc_stmts::{Program, ThisCalls, check_body, this_calls};
use jc_stmts_bodies::MethodBody;
use jc_typed::TypedMethod;
use jc_types::{MethodId, sooner};
use std::alloc::Global;

/// The least of the rules that were broken, and for each method of the table its typing, if its body was checked and breaks none.
#[derive(Drop)]
pub struct Typing {
    pub found: Option<Refusal>,
    pub slots: Vec<Option<TypedMethod>>,
}

fn nothing_typed(alloc: Global, count: usize) -> Result<Typing, WantOfMemory>
    ensures found { IfOk result (λ it. it.found ≡ None) }
    ensures slots { IfOk result (λ it. it.slots.items ≡ replicate count None) }
{
    let mut slots = Vec::new(alloc);
    for _method in 0..count {
        slots.push(None)?;
    }
    Ok(Typing { found: None, slots })
}

// A number that is no method's is let go.
#[tactic(auto, using(crate::proofs::OneMore::put_past))]
fn put(slots: &mut Vec<Option<TypedMethod>>, id: MethodId, method: TypedMethod)
    ensures { slots.new.items ≡ slice_set slots.old.items id.0 (Some method) }
{
    let at = id.0 as usize;
    if at < slots.len() {
        slots[at] = Some(method);
    }
}

#[tactic(auto, using(crate::proofs::OneMore::length_put))]
fn check_one(
    alloc: Global,
    program: &Program,
    calls: &ThisCalls,
    body: &MethodBody,
    typing: &mut Typing,
) -> Result<(), WantOfMemory>
    requires program { IsProgram program.now }
    requires calls { AreThisCalls program.now.table.now (heads_in program.now) (knowledge_in program.now) calls.now }
    ensures length { OnOk result (length typing.new.slots.items ≡ length typing.old.slots.items) }
    ensures checked { OnOk result ((bs : List MethodBody) → AreChecked program.now.table.now (heads_in program.now) (knowledge_in program.now) calls.now.calls.now bs typing.old → AreChecked program.now.table.now (heads_in program.now) (knowledge_in program.now) calls.now.calls.now (body.now ∷ bs) typing.new) }
{
    match check_body(alloc, program, calls, body) {
        Ok(method) => {
            put(&mut typing.slots, body.method, method);
            Ok(())
        }
        Err(Stop::Refused(refusal)) => {
            typing.found = sooner(typing.found, Some(refusal));
            Ok(())
        }
        Err(Stop::WantOfMemory) => Err(WantOfMemory),
    }
}

/// Checks the bodies of a program.
#[tactic(auto, using(crate::proofs::OneMore::nothing_checked, crate::proofs::OneMore::all_checked))]
pub fn check_all(
    alloc: Global,
    program: &Program,
    bodies: &[MethodBody],
) -> Result<Typing, WantOfMemory>
    requires { IsProgram program.now }
    ensures length { IfOk result (λ it. length it.slots.items ≡ length program.now.table.now.methods) }
    ensures checked { IfOk result (λ it. AreChecked program.now.table.now (heads_in program.now) (knowledge_in program.now) bodies.now bodies.now it) }
{
    let calls = this_calls(alloc, program, bodies)?;
    let mut typing = nothing_typed(alloc, program.table.methods.len())?;
    let mut left = bodies.len();
    while left > 0 {
        left -= 1;
        check_one(alloc, program, &calls, &bodies[left], &mut typing)?;
    }
    Ok(typing)
}
