//! Whether the arguments of a type are within their bounds (JLS 4.5).
ghost use Rattle.std.specs.Prelude.{◌≡◌, ◌↔◌, ◌++◌, true, IfOk, OnOk, length};
ghost use Rattle.jc_types.specs.declared.form.Arg.{out-Arg};
ghost use Rattle.jc_judge.specs.Forming.{IsWellFormed, IsIllFormed, formed_answer, all_formed_answer, needs, needs_answer, counted_needs, all_hold, all_captured, all_bare, captured_parts, bare_parts};

use crate::answering::{all_hold, both};
use crate::checking::{is_primitive_arg, lower_parts, push_bare};
use jc_judge::{Answer, Part};
use jc_rules::{Items, WantOfMemory};
use jc_sub::{asked_above, captured_args, fresh_bounds, put_bounds};
use jc_types::{Arg, Bounds, Env, Table, Ty, VarId, class_types, class_vars, is_row};
use std::alloc::Global;

/// Whether a type is well formed as far as its bounds go (JLS 4.5): after capture each argument of each class type inside it is
/// within its declared bounds, and so is the lower bound of each super wildcard where the fresh variables have no bound but
/// `Object`. Yes exactly where that has proof trees of height 64, No exactly where some of it has a refutation tree, and Deep
/// where there is neither. A wrong number of arguments, a primitive one and classes that meet in a bound are not asked for.
#[tactic(auto, using(crate::proofs::Formed::formed_clauses))]
pub fn well_formed(alloc: Global, table: &Table, env: &Env, ty: &Ty) -> Result<Answer, WantOfMemory>
    ensures yes { IfOk result (λ a. (a ≡ Answer.Yes) ↔ IsWellFormed table.now 64 env.now.bounds ty.now) }
    ensures no { IfOk result (λ a. (a ≡ Answer.No) ↔ IsIllFormed table.now 64 env.now.bounds ty.now) }
    ensures answer { IfOk result (λ a. a ≡ formed_answer table.now 64 env.now.bounds ty.now) }
{
    formed(alloc, table, env.bounds.slice(), ty)
}

#[tactic(auto, unfolding(jc_judge::specs::Forming::formed_answer))]
fn formed(alloc: Global, table: &Table, env: &[Bounds], ty: &Ty) -> Result<Answer, WantOfMemory>
    ensures { IfOk result (λ a. a ≡ formed_answer table.now 64 env.now ty.now) }
{
    let types = class_types(alloc, ty)?;
    all_formed(alloc, table, env, types.slice())
}

#[tactic(auto, using(crate::proofs::Formed::both_steps))]
fn all_formed(
    alloc: Global,
    table: &Table,
    env: &[Bounds],
    types: &[Ty],
) -> Result<Answer, WantOfMemory>
    ensures { IfOk result (λ a. a ≡ all_formed_answer table.now 64 env.now types.now) }
{
    let mut answer = Answer::Yes;
    let mut rest = types;
    while let [t, more @ ..] = rest {
        let own = own_answer(alloc, table, env, t)?;
        if own == Answer::No {
            return Ok(Answer::No);
        }
        answer = both(answer, own);
        rest = more;
    }
    Ok(answer)
}

// By a type's own arguments.
#[tactic(auto, using(jc_types::proofs::Opened::opened, crate::proofs::Formed::needs_of_class), unfolding(jc_judge::specs::Forming::needs))]
fn own_answer(alloc: Global, table: &Table, env: &[Bounds], ty: &Ty) -> Result<Answer, WantOfMemory>
    ensures { IfOk result (λ a. a ≡ needs_answer table.now 64 (needs table.now env.now ty.now)) }
{
    match ty {
        Ty::Class { id, args } => {
            let vars = class_vars(table, *id);
            if args.len() == vars.len() {
                let answer = class_answer(alloc, table, env, vars, args.slice())?;
                return Ok(answer);
            }
            Ok(Answer::Yes)
        }
        _ => Ok(Answer::Yes),
    }
}

// Of a class type with as many arguments as its class has parameters.
fn class_answer(
    alloc: Global,
    table: &Table,
    env: &[Bounds],
    vars: &[VarId],
    args: &[Arg],
) -> Result<Answer, WantOfMemory>
    requires { length args.now ≡ length vars.now }
    ensures { IfOk result (λ a. a ≡ needs_answer table.now 64 (counted_needs table.now env.now vars.now args.now true)) }
{
    let by = captured_args(alloc, env.len() as u64, args)?;
    let mut full = fresh_bounds(alloc, table, vars, by.slice(), args)?;
    let mut plain = Items::new(alloc);
    push_bare(alloc, full.slice(), &mut plain)?;
    let upper = captured_answer(alloc, table, env, &mut full, vars, by.slice(), args)?;
    let lower = bare_answer(alloc, table, env, &mut plain, vars, by.slice(), args)?;
    Ok(both(upper, lower))
}

// Whether all hold that the arguments ask, where `by` stands for the parameters.
fn captured_answer(
    alloc: Global,
    table: &Table,
    env: &[Bounds],
    full: &mut Items<Bounds>,
    vars: &[VarId],
    by: &[Ty],
    args: &[Arg],
) -> Result<Answer, WantOfMemory>
    requires { length vars.now ≡ length by.now }
    ensures { IfOk result (λ a. a ≡ all_hold table.now 64 (env.now ++ full.old) (all_captured table.now vars.now by.now vars.now by.now args.now)) }
{
    let parts = all_captured(alloc, table, vars, by, args)?;
    all_hold(alloc, table, env, full, parts.slice())
}

// The same of the lower bounds of super wildcards.
fn bare_answer(
    alloc: Global,
    table: &Table,
    env: &[Bounds],
    plain: &mut Items<Bounds>,
    vars: &[VarId],
    by: &[Ty],
    args: &[Arg],
) -> Result<Answer, WantOfMemory>
    requires { length vars.now ≡ length by.now }
    ensures { IfOk result (λ a. a ≡ all_hold table.now 64 (env.now ++ plain.old) (all_bare table.now vars.now by.now vars.now args.now)) }
{
    let parts = all_bare(alloc, table, vars, by, args)?;
    all_hold(alloc, table, env, plain, parts.slice())
}

// What has to hold of the arguments, where `by` stands for the parameters.
fn all_captured(
    alloc: Global,
    table: &Table,
    vars: &[VarId],
    by: &[Ty],
    args: &[Arg],
) -> Result<Items<Part>, WantOfMemory>
    requires { length vars.now ≡ length by.now }
    ensures { IfOk result (λ r. r ≡ all_captured table.now vars.now by.now vars.now by.now args.now) }
{
    let row = is_row(vars);
    let mut out = Items::new(alloc);
    let mut left = vars;
    let mut types = by;
    let mut rest = args;
    while let [param, others @ ..] = left {
        match types {
            [] => return Ok(out),
            [s, further @ ..] => match rest {
                [] => return Ok(out),
                [arg, more @ ..] => {
                    let bounds = put_bounds(alloc, table, vars, by, row, *param)?;
                    push_captured_parts(alloc, s, arg, bounds, &mut out)?;
                    types = further;
                    rest = more;
                }
            },
        }
        left = others;
    }
    Ok(out)
}

fn push_captured_parts(
    alloc: Global,
    s: &Ty,
    arg: &Arg,
    bounds: Items<Ty>,
    out: &mut Items<Part>,
) -> Result<(), WantOfMemory>
    ensures { OnOk result (out.new ≡ out.old ++ captured_parts s.now (out-Arg arg.now) bounds) }
{
    if is_primitive_arg(arg) {
        return Ok(());
    }
    let parts = asked_above(alloc, s, bounds.slice())?;
    out.append(parts)
}

// What has to hold of the lower bounds of super wildcards.
fn all_bare(
    alloc: Global,
    table: &Table,
    vars: &[VarId],
    by: &[Ty],
    args: &[Arg],
) -> Result<Items<Part>, WantOfMemory>
    requires { length vars.now ≡ length by.now }
    ensures { IfOk result (λ r. r ≡ all_bare table.now vars.now by.now vars.now args.now) }
{
    let row = is_row(vars);
    let mut out = Items::new(alloc);
    let mut left = vars;
    let mut rest = args;
    while let [param, others @ ..] = left {
        match rest {
            [] => return Ok(out),
            [arg, more @ ..] => {
                let bounds = put_bounds(alloc, table, vars, by, row, *param)?;
                push_bare_parts(alloc, arg, bounds, &mut out)?;
                rest = more;
            }
        }
        left = others;
    }
    Ok(out)
}

fn push_bare_parts(
    alloc: Global,
    arg: &Arg,
    bounds: Items<Ty>,
    out: &mut Items<Part>,
) -> Result<(), WantOfMemory>
    ensures { OnOk result (out.new ≡ out.old ++ bare_parts (out-Arg arg.now) bounds) }
{
    if is_primitive_arg(arg) {
        return Ok(());
    }
    let parts = lower_parts(alloc, arg, bounds.slice())?;
    out.append(parts)
}
