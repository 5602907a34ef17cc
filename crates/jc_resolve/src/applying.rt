//! Which members a call applies in a phase (JLS 15.12.2.1 to 15.12.2.4).
ghost use Rattle.std.specs.Prelude.{◌≡◌, IfOk, List, Option, length, map, true};
ghost use Rattle.jc_resolve.specs.declared.applied.Candidate.{Candidate};
ghost use Rattle.jc_infer.specs.declared.outcome.Inference.TheVariants as inference;
ghost use Rattle.jc_types.specs.Substitution.{subst};
ghost use Rattle.jc_resolve.specs.Applying.{applicable, applied_by, applied_with, before, before_if, by_subtyping, candidate, converted, counts, fits, formals_with, gathered, gathered_by, takes, type_arguments};

use crate::applied::{Applied, Candidate, Fit};
use crate::copying::copy_view;
use crate::site::CallSite;
use jc_convert::{Converts, invocation};
use jc_infer::{Inference, formals, given, infer};
use jc_members::MethodView;
use jc_rules::{Items, WantOfMemory};
use jc_sub::is_primitive;
use jc_types::{Env, Phase, Table, Ty, VarId, is_row, substitute_all};
use std::alloc::Global;

// In the first phase nothing is boxed or unboxed (JLS 15.12.2.2).
fn by_subtyping(
    alloc: Global,
    table: &Table,
    env: &Env,
    from: &Ty,
    to: &Ty,
) -> Result<Converts, WantOfMemory>
    ensures { IfOk result (λ r. r ≡ converted table.now env.now.bounds Phase.Subtyping from.now to.now) }
{
    if is_primitive(from) == is_primitive(to) {
        return invocation(alloc, table, env, from, to);
    }
    Ok(Converts::NoConversion)
}

fn converted(
    alloc: Global,
    table: &Table,
    env: &Env,
    phase: Phase,
    from: &Ty,
    to: &Ty,
) -> Result<Converts, WantOfMemory>
    ensures { IfOk result (λ r. r ≡ converted table.now env.now.bounds phase from.now to.now) }
{
    match phase {
        Phase::Subtyping => by_subtyping(alloc, table, env, from, to),
        Phase::Invocation => invocation(alloc, table, env, from, to),
        Phase::VariableArity => invocation(alloc, table, env, from, to),
    }
}

// Each argument in order is converted to its parameter.
fn fits(
    alloc: Global,
    table: &Table,
    env: &Env,
    phase: Phase,
    args: &[Ty],
    params: &[Ty],
) -> Result<Fit, WantOfMemory>
    ensures { IfOk result (λ r. r ≡ fits table.now env.now.bounds phase args.now params.now) }
{
    let mut unchecked = false;
    let mut rest = args;
    let mut others = params;
    while let [s, more @ ..] = rest {
        match others {
            [] => return Ok(Fit::Fits { unchecked }),
            [t, later @ ..] => {
                match converted(alloc, table, env, phase, s, t)? {
                    Converts::Yes(c) => unchecked = unchecked || c.unchecked,
                    Converts::NoConversion => return Ok(Fit::Fails),
                    Converts::Deep => return Ok(Fit::Deep),
                }
                others = later;
            }
        }
        rest = more;
    }
    Ok(Fit::Fits { unchecked })
}

// Whether a member takes as many arguments in a phase.
fn takes(phase: Phase, m: &MethodView, args: &[Ty]) -> bool
    ensures { result ≡ takes phase m.now (length args.now) }
{
    let params = m.params.slice().len();
    match phase {
        Phase::Subtyping => params == args.len(),
        Phase::Invocation => params == args.len(),
        Phase::VariableArity => m.variable && params <= args.len() + 1,
    }
}

// Whether explicit type arguments are as many as the type parameters.
fn counts(vars: &[VarId], explicit: &[Ty]) -> bool
    ensures { result ≡ counts vars.now explicit.now }
{
    match vars {
        [] => true,
        [_, ..] => match explicit {
            [] => true,
            [_, ..] => vars.len() == explicit.len(),
        },
    }
}

// What stands for the type parameters of a member.
fn type_arguments(
    alloc: Global,
    table: &Table,
    env: &Env,
    site: &CallSite,
    phase: Phase,
    m: &MethodView,
) -> Result<Inference, WantOfMemory>
    requires { counts m.now.vars site.now.explicit ≡ true }
    ensures { IfOk result (λ r. r ≡ type_arguments table.now env.now.bounds site.now phase m.now) }
{
    match m.vars.slice() {
        [] => Ok(Inference::Inferred {
            args: Items::new(alloc),
        }),
        [_, ..] => match site.explicit.slice() {
            [] => {
                let target = site.target.as_ref();
                infer(alloc, table, env, m, phase, site.args.slice(), target)
            }
            [_, ..] => given(alloc, table, env, m, site.explicit.slice()),
        },
    }
}

fn applied_by(by: Items<Ty>, formals: Items<Ty>, fit: Fit) -> Applied
    ensures { result ≡ applied_by by formals fit }
{
    match fit {
        Fit::Fits { unchecked } => Applied::Applies {
            type_args: by,
            formals,
            unchecked,
        },
        Fit::Fails => Applied::Fails,
        Fit::Deep => Applied::Deep,
    }
}

/// Types with type arguments for type parameters, each for each.
#[tactic(auto, using(crate::proofs::Short::mapped_short))]
pub fn put_all(
    alloc: Global,
    types: &[Ty],
    vars: &[VarId],
    by: &[Ty],
) -> Result<Items<Ty>, WantOfMemory>
    ensures { IfOk result (λ r. r ≡ map (subst vars.now by.now) types.now) }
{
    let most = vars.len().min(by.len());
    let vars = &vars[..most];
    substitute_all(alloc, types, vars, &by[..most], is_row(vars))
}

/// The types to which so many arguments go in a phase, with types for the type parameters.
pub fn formals_with(
    alloc: Global,
    phase: Phase,
    m: &MethodView,
    by: &[Ty],
    count: usize,
) -> Result<Items<Ty>, WantOfMemory>
    ensures { IfOk result (λ r. r ≡ formals_with phase m.now by.now count) }
{
    let formals = formals(alloc, phase, m.params.slice(), count)?;
    put_all(alloc, formals.slice(), m.vars.slice(), by)
}

// The questions on the arguments.
fn applied_with(
    alloc: Global,
    table: &Table,
    env: &Env,
    site: &CallSite,
    phase: Phase,
    m: &MethodView,
    by: Items<Ty>,
) -> Result<Applied, WantOfMemory>
    ensures { IfOk result (λ r. r ≡ applied_with table.now env.now.bounds site.now phase m.now (inference.Inferred by)) }
{
    let args = site.args.slice();
    let formals = formals_with(alloc, phase, m, by.slice(), args.len())?;
    let fit = fits(alloc, table, env, phase, args, formals.slice())?;
    Ok(applied_by(by, formals, fit))
}

// Whether a member is applicable in a phase.
fn applied(
    alloc: Global,
    table: &Table,
    env: &Env,
    site: &CallSite,
    phase: Phase,
    m: &MethodView,
) -> Result<Applied, WantOfMemory>
    ensures { IfOk result (λ r. r ≡ applicable table.now env.now.bounds site.now phase m.now) }
{
    if !takes(phase, m, site.args.slice()) || !counts(m.vars.slice(), site.explicit.slice()) {
        return Ok(Applied::Fails);
    }
    match type_arguments(alloc, table, env, site, phase, m)? {
        Inference::Inferred { args } => { applied_with(alloc, table, env, site, phase, m, args) }
        Inference::NotApplicable { .. } => Ok(Applied::Fails),
        Inference::Deep => Ok(Applied::Deep),
    }
}

// A member that is applicable.
fn candidate(
    alloc: Global,
    m: &MethodView,
    type_args: Items<Ty>,
    formals: Items<Ty>,
    unchecked: bool,
) -> Result<Candidate, WantOfMemory>
    ensures { IfOk result (λ c. c ≡ candidate m.now type_args formals unchecked) }
{
    let member = copy_view(alloc, m)?;
    Ok(Candidate {
        member,
        type_args,
        formals,
        unchecked,
    })
}

// A member is added where it is applicable; false where it isn't known whether it is.
#[tactic(auto, using(crate::proofs::Listed::before_put))]
fn add(
    alloc: Global,
    table: &Table,
    env: &Env,
    site: &CallSite,
    phase: Phase,
    m: &MethodView,
    list: &mut Items<Candidate>,
) -> Result<bool, WantOfMemory>
    ensures { IfOk result (λ known. (more : Option (List Candidate)) → before_if known list.new more ≡ before list.old (gathered_by m.now (applicable table.now env.now.bounds site.now phase m.now) more)) }
{
    match applied(alloc, table, env, site, phase, m)? {
        Applied::Applies {
            type_args,
            formals,
            unchecked,
        } => {
            let found = candidate(alloc, m, type_args, formals, unchecked)?;
            list.push(found)?;
            Ok(true)
        }
        Applied::Fails => Ok(true),
        Applied::Deep => Ok(false),
    }
}

/// The members that are applicable in a phase, in order; None where it isn't known of one whether it is.
#[tactic(auto, using(crate::proofs::Listed::before_nothing))]
pub fn gathered(
    alloc: Global,
    table: &Table,
    env: &Env,
    site: &CallSite,
    phase: Phase,
) -> Result<Option<Items<Candidate>>, WantOfMemory>
    ensures { IfOk result (λ r. r ≡ gathered table.now env.now.bounds site.now phase site.now.members) }
{
    let mut list = Items::new(alloc);
    let mut rest = site.members.slice();
    while let [m, more @ ..] = rest {
        match add(alloc, table, env, site, phase, m, &mut list)? {
            true => rest = more,
            false => return Ok(None),
        }
    }
    Ok(Some(list))
}
