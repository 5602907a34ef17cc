//! A method as a type has it (JLS 4.5.2, 4.8).
ghost use Rattle.std.specs.Prelude.{◌≡◌, ◌++◌, [], IfOk, OnOk, length, map};
ghost use Rattle.std.specs.Option.{option_copied, option_map};
ghost use Rattle.jc_types.specs.declared.form.Arg.{out-Arg};
ghost use Rattle.jc_types.specs.declared.form.Ty.{out-Ty};
ghost use Rattle.jc_types.specs.Substitution.{subst};
ghost use Rattle.jc_judge.specs.Views.{exact_at, exacts};
ghost use Rattle.jc_overriding.specs.Viewing.{bounds_with, declared_view, is_static, own_type, seeing_of, view_of_method, viewed_by, viewed_in, viewed_plain, viewed_with, vars_at};

use crate::erasing::{plain_all, plain_option};
use crate::kinds::is_static;
use jc_overriding::MethodView;
use jc_rules::{Items, WantOfMemory};
use jc_sub::view;
use jc_types::{
    Arg, ClassId, MethodId, Table, Ty, VarId, arguments, class_vars, copy_type, declared_bounds,
    is_row, is_variable_arity, method_owner, method_params, method_result, method_thrown,
    method_vars, substitute, substitute_all,
};
use std::alloc::Global;

/// The type of a class inside of it, with its own parameters as arguments (JLS 8.1.2).
pub fn own_type(alloc: Global, table: &Table, k: ClassId) -> Result<Ty, WantOfMemory>
    ensures { IfOk result (λ r. r ≡ own_type table.now k) }
{
    let mut args = Items::new(alloc);
    let vars = class_vars(table, k);
    for i in 0..vars.len() {
        args.push(Arg::Exact(Ty::Variable(vars[i])))?;
    }
    Ok(Ty::Class { id: k, args })
}

#[tactic(auto, using(jc_types::proofs::Opened::opened))]
fn push_exact(alloc: Global, arg: &Arg, out: &mut Items<Ty>) -> Result<(), WantOfMemory>
    ensures { OnOk result (out.new ≡ out.old ++ exact_at (out-Arg arg.now)) }
{
    match arg {
        Arg::Exact(t) => {
            let t = copy_type(alloc, t)?;
            out.push(t)
        }
        _ => Ok(()),
    }
}

/// Adds the arguments that are no wildcards.
pub fn push_exacts(alloc: Global, args: &[Arg], out: &mut Items<Ty>) -> Result<(), WantOfMemory>
    ensures { OnOk result (out.new ≡ out.old ++ exacts args.now) }
{
    let mut rest = args;
    while let [arg, more @ ..] = rest {
        push_exact(alloc, arg, out)?;
        rest = more;
    }
    Ok(())
}

/// Each of these types, with the types of `by` for the variables.
pub fn put_all(
    alloc: Global,
    types: &[Ty],
    vars: &[VarId],
    by: &[Ty],
) -> Result<Items<Ty>, WantOfMemory>
    requires { length vars.now ≡ length by.now }
    ensures { IfOk result (λ r. r ≡ map (subst vars.now by.now) types.now) }
{
    substitute_all(alloc, types, vars, by, is_row(vars))
}

fn put_option(
    alloc: Global,
    t: Option<&Ty>,
    vars: &[VarId],
    by: &[Ty],
) -> Result<Option<Ty>, WantOfMemory>
    requires { length vars.now ≡ length by.now }
    ensures { IfOk result (λ r. r ≡ option_map (subst vars.now by.now) (option_copied t.entry)) }
{
    match t {
        Some(t) => Ok(Some(substitute(alloc, t, vars, by)?)),
        None => Ok(None),
    }
}

fn bounds_with(
    alloc: Global,
    table: &Table,
    vars: &[VarId],
    by: &[Ty],
    list: &[VarId],
) -> Result<Items<Items<Ty>>, WantOfMemory>
    requires { length vars.now ≡ length by.now }
    ensures { IfOk result (λ r. r ≡ bounds_with table.now vars.now by.now list.now) }
{
    let mut out = Items::new(alloc);
    for i in 0..list.len() {
        out.push(put_all(alloc, declared_bounds(table, list[i]), vars, by)?)?;
    }
    Ok(out)
}

fn copy_vars(alloc: Global, vars: &[VarId]) -> Result<Items<VarId>, WantOfMemory>
    ensures { IfOk result (λ r. r ≡ vars.now) }
{
    Ok(Items::of(vars.to_vec(alloc)?))
}

// A method by the arguments of a supertype.
fn viewed_with(
    alloc: Global,
    table: &Table,
    m: MethodId,
    vars: &[VarId],
    by: &[Ty],
) -> Result<MethodView, WantOfMemory>
    requires { length vars.now ≡ length by.now }
    ensures { IfOk result (λ r. r ≡ viewed_with table.now m vars.now by.now) }
{
    let own = copy_vars(alloc, method_vars(table, m))?;
    let bounds = bounds_with(alloc, table, vars, by, method_vars(table, m))?;
    let params = put_all(alloc, method_params(table, m), vars, by)?;
    let result = put_option(alloc, method_result(table, m), vars, by)?;
    let thrown = put_all(alloc, method_thrown(table, m), vars, by)?;
    Ok(MethodView {
        id: m,
        vars: own,
        bounds,
        params,
        result,
        thrown,
        variable: is_variable_arity(table, m),
    })
}

// The erasure of a method.
fn viewed_plain(alloc: Global, table: &Table, m: MethodId) -> Result<MethodView, WantOfMemory>
    ensures { IfOk result (λ r. r ≡ viewed_plain table.now m) }
{
    let params = plain_all(alloc, table, method_params(table, m))?;
    let result = plain_option(alloc, table, method_result(table, m))?;
    let thrown = plain_all(alloc, table, method_thrown(table, m))?;
    Ok(MethodView {
        id: m,
        vars: Items::new(alloc),
        bounds: Items::new(alloc),
        params,
        result,
        thrown,
        variable: is_variable_arity(table, m),
    })
}

/// A method as it is declared.
pub fn declared_view(alloc: Global, table: &Table, m: MethodId) -> Result<MethodView, WantOfMemory>
    ensures { IfOk result (λ r. r ≡ declared_view table.now m) }
{
    viewed_with(alloc, table, m, &[], &[])
}

// Of parameters and arguments those that have each other.
#[tactic(auto, using(crate::proofs::Short::viewed_short))]
fn viewed_by_args(
    alloc: Global,
    table: &Table,
    m: MethodId,
    vars: &[VarId],
    by: &[Ty],
) -> Result<MethodView, WantOfMemory>
    ensures { IfOk result (λ r. r ≡ viewed_with table.now m vars.now by.now) }
{
    let most = vars.len().min(by.len());
    viewed_with(alloc, table, m, &vars[..most], &by[..most])
}

#[tactic(auto, using(jc_types::proofs::Opened::opened))]
fn vars_at<'a>(table: &'a Table, t: &Ty) -> &'a [VarId]
    ensures { result.now ≡ vars_at table.now (out-Ty t.now) }
{
    match t {
        Ty::Class { id, .. } => class_vars(table, *id),
        _ => &[],
    }
}

/// A method as a type of the class that declares it has it: by the type's arguments, or erased, where that is raw. Static members are
/// as they are declared.
pub fn viewed(alloc: Global, table: &Table, m: MethodId, v: &Ty) -> Result<MethodView, WantOfMemory>
    ensures { IfOk result (λ r. r ≡ viewed_by table.now m (is_static table.now m) (seeing_of table.now v.now)) }
{
    if is_static(table, m) {
        return declared_view(alloc, table, m);
    }
    match arguments(table, v) {
        None => viewed_plain(alloc, table, m),
        Some(args) => {
            let mut by = Items::new(alloc);
            push_exacts(alloc, args, &mut by)?;
            viewed_by_args(alloc, table, m, vars_at(table, v), by.slice())
        }
    }
}

fn viewed_in(
    alloc: Global,
    table: &Table,
    m: MethodId,
    v: Option<Ty>,
) -> Result<Option<MethodView>, WantOfMemory>
    ensures { IfOk result (λ r. r ≡ viewed_in table.now m v) }
{
    match v {
        None => Ok(None),
        Some(v) => Ok(Some(viewed(alloc, table, m, &v)?)),
    }
}

/// A method as a captured type has it, if the type has a view as the method's class.
pub fn view_of_method(
    alloc: Global,
    table: &Table,
    t: &Ty,
    m: MethodId,
) -> Result<Option<MethodView>, WantOfMemory>
    ensures { IfOk result (λ r. r ≡ view_of_method table.now t.now m) }
{
    match method_owner(table, m) {
        None => Ok(None),
        Some(k) => {
            let v = view(alloc, table, k, t)?;
            viewed_in(alloc, table, m, v)
        }
    }
}
