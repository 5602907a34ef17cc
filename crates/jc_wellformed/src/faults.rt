//! The faults of a class type (JLS 4.5).
ghost use Rattle.std.specs.Prelude.{◌≡◌, ◌+◌, ◌++◌, true, false, IfOk, OnOk, length};
ghost use Rattle.jc_types.specs.declared.form.Arg.{out-Arg};
ghost use Rattle.jc_judge.specs.Forming.{class_faults, counted_faults, args_faults, arg_faults, faults_of_arg, reference_faults, fault_if, all_hold};
ghost use Rattle.jc_judge.specs.WellFormed.{upper_parts, lower_parts};

use crate::answering::{all_hold, is_deep, is_no};
use crate::checking::{after, is_primitive_arg, lower_parts, push_bare};
use jc_judge::{Answer, TypeFault};
use jc_rules::{Items, WantOfMemory};
use jc_sub::{argument_meets, asked_above, captured_args, fresh_bounds, put_bounds};
use jc_types::{Arg, Bounds, Env, Table, Ty, VarId, class_vars, is_row};
use std::alloc::Global;

/// All faults of a class type (JLS 4.5): its wrong number of arguments alone, or the faults of its arguments in order, at each in
/// the order of the rules. Class types inside the arguments are not asked, and another type has no fault.
#[tactic(auto, using(jc_types::proofs::Opened::opened), unfolding(jc_judge::specs::Forming::class_faults))]
pub fn class_faults(
    alloc: Global,
    table: &Table,
    env: &Env,
    ty: &Ty,
) -> Result<Items<TypeFault>, WantOfMemory>
    ensures { IfOk result (λ r. r ≡ class_faults table.now env.now.bounds ty.now) }
{
    match ty {
        Ty::Class { id, args } => {
            let vars = class_vars(table, *id);
            if args.len() == vars.len() {
                return counted_faults(alloc, table, env.bounds.slice(), vars, args.slice());
            }
            one_fault(alloc, TypeFault::Count)
        }
        _ => Ok(Items::new(alloc)),
    }
}

fn one_fault(alloc: Global, fault: TypeFault) -> Result<Items<TypeFault>, WantOfMemory>
    ensures { IfOk result (λ r. r ≡ fault_if true fault) }
{
    let mut out = Items::new(alloc);
    out.push(fault)?;
    Ok(out)
}

// Of a class type with as many arguments as its class has parameters.
fn counted_faults(
    alloc: Global,
    table: &Table,
    env: &[Bounds],
    vars: &[VarId],
    args: &[Arg],
) -> Result<Items<TypeFault>, WantOfMemory>
    requires { length args.now ≡ length vars.now }
    ensures { IfOk result (λ r. r ≡ counted_faults table.now env.now vars.now args.now true) }
{
    let by = captured_args(alloc, env.len() as u64, args)?;
    let mut full = fresh_bounds(alloc, table, vars, by.slice(), args)?;
    let mut plain = Items::new(alloc);
    push_bare(alloc, full.slice(), &mut plain)?;
    args_faults(
        alloc,
        table,
        env,
        &mut full,
        &mut plain,
        vars,
        by.slice(),
        args,
    )
}

// Of the arguments, where `by` stands for the parameters.
fn args_faults(
    alloc: Global,
    table: &Table,
    env: &[Bounds],
    full: &mut Items<Bounds>,
    plain: &mut Items<Bounds>,
    vars: &[VarId],
    by: &[Ty],
    args: &[Arg],
) -> Result<Items<TypeFault>, WantOfMemory>
    requires { length vars.now ≡ length by.now }
    ensures { IfOk result (λ r. r ≡ args_faults table.now (env.now ++ full.old) (env.now ++ plain.old) vars.now by.now 0 vars.now by.now args.now) }
{
    let row = is_row(vars);
    let mut out = Items::new(alloc);
    let mut i: u64 = 0;
    let mut left = vars;
    let mut types = by;
    let mut rest = args;
    while let [param, others @ ..] = left {
        match types {
            [] => return Ok(out),
            [s, further @ ..] => match rest {
                [] => return Ok(out),
                [arg, more @ ..] => {
                    let bounds = put_bounds(alloc, table, vars, by, row, *param)?;
                    let faults = arg_faults(alloc, table, env, full, plain, bounds, i, s, arg)?;
                    out.append(faults)?;
                    types = further;
                    rest = more;
                }
            },
        }
        i = after(i)?;
        left = others;
    }
    Ok(out)
}

// Of argument `i`, which is captured as `s` and whose parameter has these bounds.
fn arg_faults(
    alloc: Global,
    table: &Table,
    env: &[Bounds],
    full: &mut Items<Bounds>,
    plain: &mut Items<Bounds>,
    bounds: Items<Ty>,
    i: u64,
    s: &Ty,
    arg: &Arg,
) -> Result<Items<TypeFault>, WantOfMemory>
    ensures faults { IfOk result (λ r. r ≡ arg_faults table.now (env.now ++ full.old) (env.now ++ plain.old) bounds i s.now arg.now) }
    ensures full { OnOk result (full.new ≡ full.old) }
    ensures plain { OnOk result (plain.new ≡ plain.old) }
{
    if is_primitive_arg(arg) {
        return one_fault(alloc, TypeFault::PrimitiveArgument { i });
    }
    asked_faults(alloc, table, env, full, plain, bounds, i, s, arg)
}

// Of argument `i`, which is no primitive type.
fn asked_faults(
    alloc: Global,
    table: &Table,
    env: &[Bounds],
    full: &mut Items<Bounds>,
    plain: &mut Items<Bounds>,
    bounds: Items<Ty>,
    i: u64,
    s: &Ty,
    arg: &Arg,
) -> Result<Items<TypeFault>, WantOfMemory>
    ensures faults { IfOk result (λ r. r ≡ faults_of_arg table.now (env.now ++ full.old) (env.now ++ plain.old) bounds i s.now arg.now false) }
    ensures full { OnOk result (full.new ≡ full.old) }
    ensures plain { OnOk result (plain.new ≡ plain.old) }
{
    let upper = upper_answer(alloc, table, env, full, bounds.slice(), s)?;
    let lower = lower_answer(alloc, table, env, plain, bounds.slice(), arg)?;
    let meets = argument_meets(alloc, table, bounds, arg)?;
    reference_faults(alloc, i, upper, lower, meets)
}

// Whether what an argument is captured as is below these bounds.
fn upper_answer(
    alloc: Global,
    table: &Table,
    env: &[Bounds],
    full: &mut Items<Bounds>,
    bounds: &[Ty],
    s: &Ty,
) -> Result<Answer, WantOfMemory>
    ensures answer { IfOk result (λ a. a ≡ all_hold table.now 64 (env.now ++ full.old) (upper_parts s.now bounds.now)) }
    ensures full { OnOk result (full.new ≡ full.old) }
{
    let parts = asked_above(alloc, s, bounds)?;
    all_hold(alloc, table, env, full, parts.slice())
}

// Whether the lower bound of a super wildcard is below these bounds.
fn lower_answer(
    alloc: Global,
    table: &Table,
    env: &[Bounds],
    plain: &mut Items<Bounds>,
    bounds: &[Ty],
    arg: &Arg,
) -> Result<Answer, WantOfMemory>
    ensures answer { IfOk result (λ a. a ≡ all_hold table.now 64 (env.now ++ plain.old) (lower_parts (out-Arg arg.now) bounds.now)) }
    ensures plain { OnOk result (plain.new ≡ plain.old) }
{
    let parts = lower_parts(alloc, arg, bounds)?;
    all_hold(alloc, table, env, plain, parts.slice())
}

fn reference_faults(
    alloc: Global,
    i: u64,
    upper: Answer,
    lower: Answer,
    meets: bool,
) -> Result<Items<TypeFault>, WantOfMemory>
    ensures { IfOk result (λ r. r ≡ reference_faults i upper lower meets) }
{
    let mut out = Items::new(alloc);
    push_if(&mut out, is_no(upper), TypeFault::Bound { i })?;
    push_if(&mut out, is_no(lower), TypeFault::SuperBound { i })?;
    push_if(&mut out, meets, TypeFault::ClassesMeet { i })?;
    let deep = is_deep(upper) || is_deep(lower);
    push_if(&mut out, deep, TypeFault::Deep)?;
    Ok(out)
}

fn push_if(
    out: &mut Items<TypeFault>,
    condition: bool,
    fault: TypeFault,
) -> Result<(), WantOfMemory>
    ensures { OnOk result (out.new ≡ out.old ++ fault_if condition fault) }
{
    if condition {
        out.push(fault)?;
    }
    Ok(())
}
