//! Constructors that call each other by `this` (JLS 8.8.7.1).
ghost use Rattle.std.specs.Prelude.{◌≡◌, ℕ, IfOk, OnOk, length, nat_eq};
ghost use Rattle.std.specs.HashMap.{get};
ghost use Rattle.jc_stmts_spec.specs.Typed.{leads, next_in};
ghost use Rattle.jc_stmts_whole.specs.Programs.{IsProgram, heads_in, knowledge_in};
ghost use Rattle.jc_stmts.specs.Targets.{AreThisCalls, first_of, next_of, or_none};

use crate::targets::this_target;
use jc_rules::WantOfMemory;
use jc_stmts_bodies::MethodBody;
use jc_stmts_whole::Program;
use jc_types::MethodId;
use std::alloc::Global;
use std::collections::HashMap;

/// The bodies of the constructors of a class, and for the number of each the constructor that it calls by `this`, if it calls one.
#[derive(Drop)]
pub struct ThisCalls<'a, 'b> {
    pub calls: &'a [MethodBody<'b>],
    pub targets: HashMap<u64, Option<MethodId>>,
}

// A constructor's target, where none is there yet.
#[tactic(auto, using(crate::proofs::Leading::targeting))]
fn put_first(
    targets: &mut HashMap<u64, Option<MethodId>>,
    method: MethodId,
    target: Option<MethodId>,
) -> Result<(), WantOfMemory>
    ensures { OnOk result ((n : ℕ) → get nat_eq targets.new n ≡ first_of (get nat_eq targets.old n) (nat_eq method.0 n) target) }
{
    if targets.contains_key(&method.0) {
        return Ok(());
    }
    targets.insert(method.0, target)?;
    Ok(())
}

// Of two constructors with one number the first one counts.
#[tactic(auto, using(crate::proofs::Leading::targeting))]
fn targets(
    alloc: Global,
    program: &Program,
    calls: &[MethodBody],
) -> Result<HashMap<u64, Option<MethodId>>, WantOfMemory>
    requires { IsProgram program.now }
    ensures { IfOk result (λ ts. (m : MethodId) → or_none (get nat_eq ts m.0) ≡ next_in program.now.table.now (heads_in program.now) (knowledge_in program.now) calls.now m) }
{
    let mut targets = HashMap::new(alloc);
    let mut rest = calls;
    while let [next, more @ ..] = rest {
        let target = this_target(alloc, program, next)?;
        put_first(&mut targets, next.method, target)?;
        rest = more;
    }
    Ok(targets)
}

/// What the constructors of a class call by `this`, which each call's resolution tells.
pub fn this_calls<'a, 'b>(
    alloc: Global,
    program: &Program,
    calls: &'a [MethodBody<'b>],
) -> Result<ThisCalls<'a, 'b>, WantOfMemory>
    requires { IsProgram program.now }
    ensures calls { IfOk result (λ c. c.calls.now ≡ calls.now) }
    ensures are { IfOk result (λ c. AreThisCalls program.now.table.now (heads_in program.now) (knowledge_in program.now) c) }
{
    let targets = targets(alloc, program, calls)?;
    Ok(ThisCalls { calls, targets })
}

/// The constructor that one calls.
pub fn next_of(calls: &ThisCalls, method: MethodId) -> Option<MethodId>
    ensures { result ≡ next_of calls.now method }
{
    match calls.targets.get(&method.0) {
        Some(target) => *target,
        None => None,
    }
}

/// Whether such calls lead from one constructor to another, in no more steps than there are constructors.
#[tactic(auto, using(crate::proofs::Leading::leading))]
pub fn leads(calls: &ThisCalls, from: Option<MethodId>, to: MethodId) -> bool
    ensures { result ≡ leads (next_of calls.now) (length calls.now.calls.now) from to }
{
    let mut left = calls.calls.len();
    let mut at = from;
    while let Some(method) = at {
        if method.0 == to.0 {
            return true;
        }
        if left == 0 {
            return false;
        }
        left -= 1;
        at = next_of(calls, method);
    }
    false
}
