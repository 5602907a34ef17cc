//! Methods and classes (JVMS 4.10.1).
ghost use Rattle.std.specs.Prelude.{◌≡◌, IfOk, None, map};
ghost use Rattle.jc_frames_steps.specs.Placed.{array_made};
ghost use Rattle.jc_frames_check.specs.Frames.{entry_frame as entry_frame_by, fault_behind, body_fault as body_fault_by, method_fault as method_fault_by, class_fault};
ghost use Rattle.jc_frames_check.specs.Told.{told};

use crate::entries::entry_frame;
use crate::handlers::first_illegal;
use crate::merged::state_at;
use crate::passing::walk;
use jc_class_out::{ClassModel, Frame, MethodModel};
use jc_frames_steps::{Environment, array_names};
use jc_frames_types::Supertypes;
use jc_rules::{Items, WantOfMemory};
use std::alloc::Global;

/// The first method of a class that isn't type safe, by its number from 0, and the offset in its code.
#[derive(Clone, Copy, Debug)]
pub struct FrameFault {
    pub method: usize,
    pub at: u32,
}

/// What is made for a method's code before it is walked over: the types at its entry, and those of arrays that its instructions name.
#[derive(Drop)]
struct Prepared {
    entry: Frame,
    made: Items<Items<u16>>,
}

fn prepare(alloc: Global, e: &Environment<'_>) -> Result<Prepared, WantOfMemory>
    ensures entry { IfOk result (λ p. p.entry ≡ entry_frame_by e.now.class e.now.method) }
    ensures made { IfOk result (λ p. p.made ≡ map array_made e.now.code.ins) }
{
    let entry = entry_frame(alloc, e.class(), e.method())?;
    let made = array_names(alloc, e.code().ins.slice())?;
    Ok(Prepared { entry, made })
}

fn prepared_fault<'a>(
    alloc: Global,
    e: &Environment<'a>,
    prepared: &'a Prepared,
) -> Result<Option<u32>, WantOfMemory>
    requires entry { prepared.now.entry ≡ entry_frame_by e.now.class e.now.method }
    requires made { prepared.now.made ≡ map array_made e.now.code.ins }
    ensures { IfOk result (λ fault. fault ≡ fault_behind e.now None) }
{
    match state_at(alloc, e.code(), &prepared.entry)? {
        Some(start) => {
            let mut state = start;
            walk(alloc, e, prepared.made.slice(), &mut state)
        }
        None => Ok(Some(0)),
    }
}

/// The same where what was made lives less long than what the environment lends.
fn lent_fault<'e: 'a, 'a>(
    alloc: Global,
    e: &Environment<'e>,
    prepared: &'a Prepared,
) -> Result<Option<u32>, WantOfMemory>
    requires entry { prepared.now.entry ≡ entry_frame_by e.now.class e.now.method }
    requires made { prepared.now.made ≡ map array_made e.now.code.ins }
    ensures { IfOk result (λ fault. fault ≡ fault_behind e.now None) }
{
    prepared_fault(alloc, e, prepared)
}

fn code_fault(alloc: Global, e: &Environment<'_>) -> Result<Option<u32>, WantOfMemory>
    ensures { IfOk result (λ fault. fault ≡ fault_behind e.now None) }
{
    let prepared = prepare(alloc, e)?;
    lent_fault(alloc, e, &prepared)
}

fn body_fault(alloc: Global, e: &Environment<'_>) -> Result<Option<u32>, WantOfMemory>
    ensures { IfOk result (λ fault. fault ≡ body_fault_by e.now) }
{
    match first_illegal(e, e.code().handlers.slice()) {
        Some(at) => Ok(Some(at)),
        None => code_fault(alloc, e),
    }
}

fn method_fault(
    alloc: Global,
    types: &Supertypes<'_>,
    class: &ClassModel,
    method: &MethodModel,
) -> Result<Option<u32>, WantOfMemory>
    ensures { IfOk result (λ fault. fault ≡ method_fault_by types.now class.now method.now) }
{
    match &method.code {
        None => Ok(None),
        Some(code) => {
            let e = Environment::of(alloc, types, class, method, code)?;
            body_fault(alloc, &e)
        }
    }
}

/// The first method of the class and the first offset at which a rule of JVMS 4.10.1 for the profile's instructions doesn't hold, among classes
/// that decide which types stand for which. A class file's class is one for which `fits` answers true.
#[tactic(auto, unfolding(crate::specs::Frames::methods_fault))]
pub fn frames_ok(
    alloc: Global,
    types: &Supertypes<'_>,
    class: &ClassModel,
) -> Result<Option<FrameFault>, WantOfMemory>
    ensures { IfOk result (λ fault. told fault ≡ class_fault types.now class.now) }
{
    let mut number = 0;
    let mut rest = class.methods.slice();
    while let [method, more @ ..] = rest {
        match method_fault(alloc, types, class, method)? {
            Some(at) => return Ok(Some(FrameFault { method: number, at })),
            None => {}
        }
        number += 1;
        rest = more;
    }
    Ok(None)
}
