//! Whether a type is well formed (JLS 4.5).
ghost use Rattle.std.specs.Prelude.{◌≡◌, ◌+◌, ◌++◌, None, IfOk, IfErr, OnOk, length};
ghost use Rattle.jc_types.specs.declared.form.Arg.{out-Arg};
ghost use Rattle.jc_judge.specs.Capturing.{captured_args, put_bounds};
ghost use Rattle.jc_judge.specs.WellFormed.{lower_parts, is_primitive_arg, bare, arg_fault, ReferenceChecked, ArgChecked, ArgsChecked, ClassChecked, OwnChecked, AllChecked, IsChecked, IsCheckStop};

use jc_judge::{Answer, Part, TypeFault};
use jc_rules::{Items, Stop, WantOfMemory};
use jc_sub::{
    MAX_HEIGHT, argument_meets, asked_above, captured_args, every, fresh_bounds, is_primitive,
    put_bounds,
};
use jc_types::{Arg, Bounds, ClassId, Env, Table, Ty, VarId, class_types, class_vars, is_row};
use std::alloc::Global;

/// Whether a type is well formed (JLS 4.5). The type itself is asked first, and then the class types inside it in the order in
/// which they are written. The first one with a fault is answered: by a wrong number of arguments, or by the first of its own
/// arguments that has a fault, and there by the fault of the least rule.
pub fn check_type(alloc: Global, table: &Table, env: &Env, ty: &Ty) -> Result<(), Stop<TypeFault>>
    ensures well_formed { OnOk result (IsChecked table.now env.now.bounds ty.now None) }
    ensures fault { IfErr result (IsCheckStop table.now env.now.bounds ty.now) }
{
    match first_fault(alloc, table, env.bounds.slice(), ty)? {
        None => Ok(()),
        Some(fault) => Err(Stop::Refused(fault)),
    }
}

// The fault of the first class type in a type that has one.
fn first_fault(
    alloc: Global,
    table: &Table,
    env: &[Bounds],
    ty: &Ty,
) -> Result<Option<TypeFault>, WantOfMemory>
    ensures { IfOk result (λ found. IsChecked table.now env.now ty.now found) }
{
    let types = class_types(alloc, ty)?;
    check_all(alloc, table, env, types.slice())
}

fn check_all(
    alloc: Global,
    table: &Table,
    env: &[Bounds],
    types: &[Ty],
) -> Result<Option<TypeFault>, WantOfMemory>
    ensures { IfOk result (λ found. AllChecked table.now env.now types.now found) }
{
    let mut rest = types;
    while let [t, more @ ..] = rest {
        let fault = check_own(alloc, table, env, t)?;
        if fault.is_some() {
            return Ok(fault);
        }
        rest = more;
    }
    Ok(None)
}

// A type's own fault.
#[tactic(auto, using(jc_types::proofs::Opened::opened), unfolding(jc_judge::specs::WellFormed::OwnChecked))]
fn check_own(
    alloc: Global,
    table: &Table,
    env: &[Bounds],
    ty: &Ty,
) -> Result<Option<TypeFault>, WantOfMemory>
    ensures { IfOk result (λ found. OwnChecked table.now env.now ty.now found) }
{
    match ty {
        Ty::Class { id, args } => {
            let vars = class_vars(table, *id);
            if args.len() == vars.len() {
                check_class(alloc, table, env, vars, args.slice())
            } else {
                Ok(Some(TypeFault::Count))
            }
        }
        _ => Ok(None),
    }
}

// A class type with as many arguments as its class has parameters.
fn check_class(
    alloc: Global,
    table: &Table,
    env: &[Bounds],
    vars: &[VarId],
    args: &[Arg],
) -> Result<Option<TypeFault>, WantOfMemory>
    requires { length args.now ≡ length vars.now }
    ensures { IfOk result (λ found. ClassChecked table.now env.now vars.now (captured_args (length env.now) args.now) args.now found) }
{
    let by = captured_args(alloc, env.len() as u64, args)?;
    let mut full = fresh_bounds(alloc, table, vars, by.slice(), args)?;
    let mut plain = Items::new(alloc);
    push_bare(alloc, full.slice(), &mut plain)?;
    check_args(
        alloc,
        table,
        env,
        &mut full,
        &mut plain,
        vars,
        by.slice(),
        args,
    )
}

// As many fresh variables with no bound but Object.
pub fn push_bare(
    alloc: Global,
    fresh: &[Bounds],
    out: &mut Items<Bounds>,
) -> Result<(), WantOfMemory>
    ensures { OnOk result (out.new ≡ out.old ++ bare fresh.now) }
{
    let mut rest = fresh;
    while let [_, more @ ..] = rest {
        let mut uppers = Items::new(alloc);
        uppers.push(Ty::Class {
            id: ClassId(0),
            args: Items::new(alloc),
        })?;
        out.push(Bounds {
            uppers,
            lower: None,
        })?;
        rest = more;
    }
    Ok(())
}

// The fault of the first argument that has one, where `by` stands for the parameters.
fn check_args(
    alloc: Global,
    table: &Table,
    env: &[Bounds],
    full: &mut Items<Bounds>,
    plain: &mut Items<Bounds>,
    vars: &[VarId],
    by: &[Ty],
    args: &[Arg],
) -> Result<Option<TypeFault>, WantOfMemory>
    requires { length vars.now ≡ length by.now }
    ensures { IfOk result (λ found. ArgsChecked table.now (env.now ++ full.old) (env.now ++ plain.old) vars.now by.now 0 vars.now by.now args.now found) }
{
    let row = is_row(vars);
    let mut i: u64 = 0;
    let mut left = vars;
    let mut types = by;
    let mut rest = args;
    while let [param, later_params @ ..] = left {
        let [s, later_types @ ..] = types else {
            return Ok(None);
        };
        let [arg, later @ ..] = rest else {
            return Ok(None);
        };
        let bounds = put_bounds(alloc, table, vars, by, row, *param)?;
        let fault = check_arg(alloc, table, env, full, plain, bounds, i, s, arg)?;
        if fault.is_some() {
            return Ok(fault);
        }
        i = after(i)?;
        left = later_params;
        types = later_types;
        rest = later;
    }
    Ok(None)
}

// The number of the next argument. No memory holds as many as would overflow.
pub fn after(i: u64) -> Result<u64, WantOfMemory>
    ensures { IfOk result (λ n. n ≡ i + 1) }
{
    match i.checked_add(1) {
        Some(next) => Ok(next),
        None => Err(WantOfMemory),
    }
}

// The fault of argument `i`, which is captured as `s` and whose parameter has these bounds.
fn check_arg(
    alloc: Global,
    table: &Table,
    env: &[Bounds],
    full: &mut Items<Bounds>,
    plain: &mut Items<Bounds>,
    bounds: Items<Ty>,
    i: u64,
    s: &Ty,
    arg: &Arg,
) -> Result<Option<TypeFault>, WantOfMemory>
    ensures checked { IfOk result (λ f. ArgChecked table.now (env.now ++ full.old) (env.now ++ plain.old) bounds i s.now arg.now f) }
    ensures full { OnOk result (full.new ≡ full.old) }
    ensures plain { OnOk result (plain.new ≡ plain.old) }
{
    if is_primitive_arg(arg) {
        return Ok(Some(TypeFault::PrimitiveArgument { i }));
    }
    check_reference(alloc, table, env, full, plain, bounds, i, s, arg)
}

// The fault of argument `i`, which is no primitive type.
fn check_reference(
    alloc: Global,
    table: &Table,
    env: &[Bounds],
    full: &mut Items<Bounds>,
    plain: &mut Items<Bounds>,
    bounds: Items<Ty>,
    i: u64,
    s: &Ty,
    arg: &Arg,
) -> Result<Option<TypeFault>, WantOfMemory>
    ensures checked { IfOk result (λ f. ReferenceChecked table.now (env.now ++ full.old) (env.now ++ plain.old) bounds i s.now arg.now f) }
    ensures full { OnOk result (full.new ≡ full.old) }
    ensures plain { OnOk result (plain.new ≡ plain.old) }
{
    let uppers = asked_above(alloc, s, bounds.slice())?;
    let lowers = lower_parts(alloc, arg, bounds.slice())?;
    let upper = every(alloc, table, env, full, MAX_HEIGHT, uppers.slice())?;
    let lower = every(alloc, table, env, plain, MAX_HEIGHT, lowers.slice())?;
    let meets = argument_meets(alloc, table, bounds, arg)?;
    Ok(arg_fault(i, upper, lower, meets))
}

#[tactic(auto, using(jc_types::proofs::Opened::opened))]
pub fn lower_parts(alloc: Global, arg: &Arg, bounds: &[Ty]) -> Result<Items<Part>, WantOfMemory>
    ensures { IfOk result (λ r. r ≡ lower_parts (out-Arg arg.now) bounds.now) }
{
    match arg {
        Arg::Super(lower) => asked_above(alloc, lower, bounds),
        _ => Ok(Items::new(alloc)),
    }
}

#[tactic(auto, using(jc_types::proofs::Opened::opened))]
pub fn is_primitive_arg(arg: &Arg) -> bool
    ensures { result ≡ is_primitive_arg (out-Arg arg.now) }
{
    match arg {
        Arg::Exact(t) => is_primitive(t),
        Arg::Any => false,
        Arg::Extends(t) => is_primitive(t),
        Arg::Super(t) => is_primitive(t),
    }
}

fn arg_fault(i: u64, upper: Answer, lower: Answer, meets: bool) -> Option<TypeFault>
    ensures { result ≡ arg_fault i upper lower meets }
{
    if upper == Answer::No {
        return Some(TypeFault::Bound { i });
    }
    if lower == Answer::No {
        return Some(TypeFault::SuperBound { i });
    }
    if meets {
        return Some(TypeFault::ClassesMeet { i });
    }
    if upper == Answer::Yes && lower == Answer::Yes {
        None
    } else {
        Some(TypeFault::Deep)
    }
}
