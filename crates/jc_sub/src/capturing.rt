//! Capture conversion (JLS 5.1.10).
ghost use Rattle.std.specs.Prelude.{◌≡◌, ◌+◌, ◌++◌, ◌∷◌, [], true, map, length, None, IfOk, IfErr, OnOk, OnErr};
ghost use Rattle.jc_types.specs.declared.form.Arg.{out-Arg};
ghost use Rattle.jc_types.specs.declared.form.Arg.TheVariants.{Exact};
ghost use Rattle.jc_types.specs.Substitution.{is_row};
ghost use Rattle.jc_judge.specs.Meeting.{glb};
ghost use Rattle.jc_judge.specs.Capturing.{capture, capture_one, capture_parts, captured_args, fresh_args, fresh_at, put_bounds, meets_at, first_meeting, meeting, meeting_one, meeting_parts, bounded, captured_at, next_at, IsCaptureStop};

use crate::meeting::{as_one, classes_meet, glb_parts};
use jc_judge::CaptureFault;
use jc_rules::{Items, Stop, WantOfMemory};
use jc_types::{
    Arg, Bounds, CaptureId, ClassId, Env, Table, Ty, VarId, class_vars, copy_type, declared_bounds,
    is_row, substitute_all,
};
use std::alloc::Global;

/// The capture of a type (JLS 5.1.10). The fresh variables are added to `env`. Each part of an intersection is captured. It is
/// refused where two unrelated classes meet in the bound of a wildcard `? extends U`, by the first such argument, counted from
/// 0 in the type or in the part of it that has the argument. A capture that stops leaves `env` as it was.
pub fn capture(
    alloc: Global,
    table: &Table,
    env: &mut Env,
    ty: &Ty,
) -> Result<Ty, Stop<CaptureFault>>
    ensures ty { IfOk result (λ r. r ≡ (capture table.now (length env.old.bounds) ty.now).ty) }
    ensures env { OnOk result (env.new.bounds ≡ env.old.bounds ++ (capture table.now (length env.old.bounds) ty.now).fresh) }
    ensures fine { OnOk result (meeting table.now (length env.old.bounds) ty.now ≡ None) }
    ensures fault { IfErr result (IsCaptureStop (meeting table.now (length env.old.bounds) ty.now)) }
    ensures unchanged { OnErr result (env.new.bounds ≡ env.old.bounds) }
{
    let start = env.bounds.len() as u64;
    if let Some(i) = meeting(alloc, table, start, ty)? {
        return Err(Stop::Refused(CaptureFault::ClassesMeet { i }));
    }
    let CaptureMade { ty, fresh } = capture_from(alloc, table, start, ty)?;
    env.bounds.append(fresh)?;
    Ok(ty)
}

/// A captured type, and the bounds of its fresh variables.
#[derive(Drop)]
pub struct CaptureMade {
    pub ty: Ty,
    pub fresh: Items<Bounds>,
}

// The capture of a type, where `start` variables were captured before.
#[tactic(auto, using(jc_types::proofs::Opened::opened), unfolding(jc_judge::specs::Capturing::capture))]
fn capture_from(
    alloc: Global,
    table: &Table,
    start: u64,
    ty: &Ty,
) -> Result<CaptureMade, WantOfMemory>
    ensures ty { IfOk result (λ r. r.ty ≡ (capture table.now start ty.now).ty) }
    ensures fresh { IfOk result (λ r. r.fresh ≡ (capture table.now start ty.now).fresh) }
{
    match ty {
        Ty::Meet { parts } => {
            let mut types = Items::new(alloc);
            let mut fresh = Items::new(alloc);
            capture_parts(alloc, table, start, parts.slice(), &mut types, &mut fresh)?;
            Ok(CaptureMade {
                ty: Ty::Meet { parts: types },
                fresh,
            })
        }
        _ => capture_one(alloc, table, start, ty),
    }
}

fn capture_parts(
    alloc: Global,
    table: &Table,
    start: u64,
    parts: &[Ty],
    types: &mut Items<Ty>,
    fresh: &mut Items<Bounds>,
) -> Result<(), WantOfMemory>
    ensures types { OnOk result (types.new ≡ types.old ++ (capture_parts table.now start parts.now).types) }
    ensures fresh { OnOk result (fresh.new ≡ fresh.old ++ (capture_parts table.now start parts.now).fresh) }
{
    let mut next = start;
    let mut rest = parts;
    while let [part, more @ ..] = rest {
        let one = capture_one(alloc, table, next, part)?;
        next = moved_on(next, one.fresh.len())?;
        types.push(one.ty)?;
        fresh.append(one.fresh)?;
        rest = more;
    }
    Ok(())
}

/// The capture of a type that is no intersection, where `start` variables were captured before.
#[tactic(auto, using(jc_types::proofs::Opened::opened), unfolding(jc_judge::specs::Capturing::capture_one))]
pub fn capture_one(
    alloc: Global,
    table: &Table,
    start: u64,
    ty: &Ty,
) -> Result<CaptureMade, WantOfMemory>
    ensures ty { IfOk result (λ r. r.ty ≡ (capture_one table.now start ty.now).ty) }
    ensures fresh { IfOk result (λ r. r.fresh ≡ (capture_one table.now start ty.now).fresh) }
{
    match ty {
        Ty::Class { id, args } => {
            let vars = class_vars(table, *id);
            if args.len() == vars.len() {
                return capture_class(alloc, table, start, *id, vars, args.slice());
            }
            unchanged(alloc, ty)
        }
        _ => unchanged(alloc, ty),
    }
}

fn unchanged(alloc: Global, ty: &Ty) -> Result<CaptureMade, WantOfMemory>
    ensures ty { IfOk result (λ r. r.ty ≡ ty.now) }
    ensures fresh { IfOk result (λ r. r.fresh ≡ []) }
{
    let ty = copy_type(alloc, ty)?;
    Ok(CaptureMade {
        ty,
        fresh: Items::new(alloc),
    })
}

fn capture_class(
    alloc: Global,
    table: &Table,
    start: u64,
    id: ClassId,
    vars: &[VarId],
    args: &[Arg],
) -> Result<CaptureMade, WantOfMemory>
    requires { length args.now ≡ length vars.now }
    ensures ty { IfOk result (λ r. r.ty ≡ Ty.Class id (map Exact (captured_args start args.now))) }
    ensures fresh { IfOk result (λ r. r.fresh ≡ fresh_args table.now vars.now (captured_args start args.now) vars.now args.now) }
{
    let by = captured_args(alloc, start, args)?;
    let fresh = fresh_bounds(alloc, table, vars, by.slice(), args)?;
    let args = all_exact(alloc, by.slice())?;
    Ok(CaptureMade {
        ty: Ty::Class { id, args },
        fresh,
    })
}

/// What stands for the arguments of a class type after capture, where `start` variables were captured before.
#[tactic(auto, using(crate::proofs::Joined::captured_count))]
pub fn captured_args(alloc: Global, start: u64, args: &[Arg]) -> Result<Items<Ty>, WantOfMemory>
    ensures types { IfOk result (λ r. r ≡ captured_args start args.now) }
    ensures count { IfOk result (λ r. length r ≡ length args.now) }
{
    let mut out = Items::new(alloc);
    push_captured(alloc, start, args, &mut out)?;
    Ok(out)
}

fn push_captured(
    alloc: Global,
    start: u64,
    args: &[Arg],
    out: &mut Items<Ty>,
) -> Result<(), WantOfMemory>
    ensures { OnOk result (out.new ≡ out.old ++ captured_args start args.now) }
{
    let mut next = start;
    let mut rest = args;
    while let [arg, more @ ..] = rest {
        next = push_one_captured(alloc, next, arg, out)?;
        rest = more;
    }
    Ok(())
}

// What stands for one argument, and the number of the next variable.
#[tactic(auto, using(jc_types::proofs::Opened::opened))]
fn push_one_captured(
    alloc: Global,
    next: u64,
    arg: &Arg,
    out: &mut Items<Ty>,
) -> Result<u64, WantOfMemory>
    ensures out { OnOk result (out.new ≡ out.old ++ captured_at next (out-Arg arg.now) ∷ []) }
    ensures next { IfOk result (λ n. n ≡ next_at next (out-Arg arg.now)) }
{
    match arg {
        Arg::Exact(t) => {
            let t = copy_type(alloc, t)?;
            out.push(t)?;
            Ok(next)
        }
        _ => {
            out.push(Ty::Captured(CaptureId(next)))?;
            moved_on(next, 1)
        }
    }
}

/// A number, and some more. No memory holds as many as would overflow.
pub fn moved_on(start: u64, more: usize) -> Result<u64, WantOfMemory>
    ensures { IfOk result (λ n. n ≡ start + more) }
{
    match start.checked_add(more as u64) {
        Some(next) => Ok(next),
        None => Err(WantOfMemory),
    }
}

fn all_exact(alloc: Global, types: &[Ty]) -> Result<Items<Arg>, WantOfMemory>
    ensures { IfOk result (λ r. r ≡ map Exact types.now) }
{
    let mut out = Items::new(alloc);
    for i in 0..types.len() {
        let t = copy_type(alloc, &types[i])?;
        out.push(Arg::Exact(t))?;
    }
    Ok(out)
}

/// The declared bounds of a parameter, with the types `by` for the parameters `vars`, of which `row` tells whether they are known
/// to be a row.
pub fn put_bounds(
    alloc: Global,
    table: &Table,
    vars: &[VarId],
    by: &[Ty],
    row: bool,
    param: VarId,
) -> Result<Items<Ty>, WantOfMemory>
    requires same { length vars.now ≡ length by.now }
    requires row { row ≡ true → is_row vars.now ≡ true }
    ensures { IfOk result (λ r. r ≡ put_bounds table.now vars.now by.now param) }
{
    substitute_all(alloc, declared_bounds(table, param), vars, by, row)
}

/// The bounds of the fresh variables of a class type with these arguments, of which `by` stands for the parameters `vars`.
pub fn fresh_bounds(
    alloc: Global,
    table: &Table,
    vars: &[VarId],
    by: &[Ty],
    args: &[Arg],
) -> Result<Items<Bounds>, WantOfMemory>
    requires { length vars.now ≡ length by.now }
    ensures { IfOk result (λ r. r ≡ fresh_args table.now vars.now by.now vars.now args.now) }
{
    let mut out = Items::new(alloc);
    push_fresh(alloc, table, vars, by, vars, args, &mut out)?;
    Ok(out)
}

fn push_fresh(
    alloc: Global,
    table: &Table,
    vars: &[VarId],
    by: &[Ty],
    params: &[VarId],
    args: &[Arg],
    out: &mut Items<Bounds>,
) -> Result<(), WantOfMemory>
    requires { length vars.now ≡ length by.now }
    ensures { OnOk result (out.new ≡ out.old ++ fresh_args table.now vars.now by.now params.now args.now) }
{
    let row = is_row(vars);
    let mut left = params;
    let mut rest = args;
    while let [param, others @ ..] = left {
        match rest {
            [] => return Ok(()),
            [arg, more @ ..] => {
                push_bounds(alloc, table, vars, by, row, *param, arg, out)?;
                rest = more;
            }
        }
        left = others;
    }
    Ok(())
}

#[tactic(auto, using(jc_types::proofs::Opened::opened))]
fn push_bounds(
    alloc: Global,
    table: &Table,
    vars: &[VarId],
    by: &[Ty],
    row: bool,
    param: VarId,
    arg: &Arg,
    out: &mut Items<Bounds>,
) -> Result<(), WantOfMemory>
    requires same { length vars.now ≡ length by.now }
    requires row { row ≡ true → is_row vars.now ≡ true }
    ensures { OnOk result (out.new ≡ out.old ++ fresh_at table.now (put_bounds table.now vars.now by.now param) (out-Arg arg.now)) }
{
    match arg {
        Arg::Exact(_) => Ok(()),
        Arg::Any => {
            let bounds = put_bounds(alloc, table, vars, by, row, param)?;
            out.push(bounded(alloc, table, bounds.slice(), None)?)
        }
        Arg::Extends(upper) => {
            let bounds = put_bounds(alloc, table, vars, by, row, param)?;
            let types = joined(alloc, upper, bounds)?;
            out.push(bounded(alloc, table, types.slice(), None)?)
        }
        Arg::Super(lower) => {
            let bounds = put_bounds(alloc, table, vars, by, row, param)?;
            let lower = copy_type(alloc, lower)?;
            out.push(bounded(alloc, table, bounds.slice(), Some(lower))?)
        }
    }
}

// The bounds of a fresh variable below all these types.
fn bounded(
    alloc: Global,
    table: &Table,
    types: &[Ty],
    lower: Option<Ty>,
) -> Result<Bounds, WantOfMemory>
    ensures { IfOk result (λ r. r ≡ bounded (glb table.now types.now) lower) }
{
    let upper = as_one(alloc, glb_parts(alloc, table, types)?);
    let mut uppers = Items::new(alloc);
    uppers.push(upper)?;
    Ok(Bounds { uppers, lower })
}

// A type before others.
fn joined(alloc: Global, first: &Ty, others: Items<Ty>) -> Result<Items<Ty>, WantOfMemory>
    ensures { IfOk result (λ r. r ≡ first.now ∷ others) }
{
    let mut types = Items::new(alloc);
    let first = copy_type(alloc, first)?;
    types.push(first)?;
    types.append(others)?;
    Ok(types)
}

#[tactic(auto, using(jc_types::proofs::Opened::opened), unfolding(jc_judge::specs::Capturing::meeting))]
fn meeting(alloc: Global, table: &Table, start: u64, ty: &Ty) -> Result<Option<u64>, WantOfMemory>
    ensures { IfOk result (λ r. r ≡ meeting table.now start ty.now) }
{
    match ty {
        Ty::Meet { parts } => meeting_parts(alloc, table, start, parts.slice()),
        _ => meeting_one(alloc, table, start, ty),
    }
}

fn meeting_parts(
    alloc: Global,
    table: &Table,
    start: u64,
    parts: &[Ty],
) -> Result<Option<u64>, WantOfMemory>
    ensures { IfOk result (λ r. r ≡ meeting_parts table.now start parts.now) }
{
    let mut next = start;
    let mut rest = parts;
    while let [part, more @ ..] = rest {
        if let Some(i) = meeting_one(alloc, table, next, part)? {
            return Ok(Some(i));
        }
        let one = capture_one(alloc, table, next, part)?;
        next = moved_on(next, one.fresh.len())?;
        rest = more;
    }
    Ok(None)
}

#[tactic(auto, using(jc_types::proofs::Opened::opened), unfolding(jc_judge::specs::Capturing::meeting_one))]
fn meeting_one(
    alloc: Global,
    table: &Table,
    start: u64,
    ty: &Ty,
) -> Result<Option<u64>, WantOfMemory>
    ensures { IfOk result (λ r. r ≡ meeting_one table.now start ty.now) }
{
    match ty {
        Ty::Class { id, args } => {
            let vars = class_vars(table, *id);
            if args.len() == vars.len() {
                let by = captured_args(alloc, start, args.slice())?;
                return first_meeting(alloc, table, vars, by.slice(), args.slice());
            }
            Ok(None)
        }
        _ => Ok(None),
    }
}

fn first_meeting(
    alloc: Global,
    table: &Table,
    vars: &[VarId],
    by: &[Ty],
    args: &[Arg],
) -> Result<Option<u64>, WantOfMemory>
    requires { length vars.now ≡ length by.now }
    ensures { IfOk result (λ r. r ≡ first_meeting table.now vars.now by.now 0 vars.now args.now) }
{
    let row = is_row(vars);
    let mut i: u64 = 0;
    let mut left = vars;
    let mut rest = args;
    while let [param, others @ ..] = left {
        match rest {
            [] => return Ok(None),
            [arg, more @ ..] => {
                let bounds = put_bounds(alloc, table, vars, by, row, *param)?;
                if argument_meets(alloc, table, bounds, arg)? {
                    return Ok(Some(i));
                }
                rest = more;
            }
        }
        i = moved_on(i, 1)?;
        left = others;
    }
    Ok(None)
}

/// Whether two unrelated classes meet in the bound of an argument `? extends U`, where its parameter has these bounds.
#[tactic(auto, using(jc_types::proofs::Opened::opened))]
pub fn argument_meets(
    alloc: Global,
    table: &Table,
    bounds: Items<Ty>,
    arg: &Arg,
) -> Result<bool, WantOfMemory>
    ensures { IfOk result (λ r. r ≡ meets_at table.now bounds (out-Arg arg.now)) }
{
    match arg {
        Arg::Extends(upper) => {
            let types = joined(alloc, upper, bounds)?;
            let parts = glb_parts(alloc, table, types.slice())?;
            classes_meet(alloc, table, parts.slice())
        }
        _ => Ok(false),
    }
}
