//! The first locals of a method: `this` of an instance, and then the parameters.
ghost use Rattle.std.specs.Prelude.{◌≡◌, ◌+◌, ◌++◌, IfOk, OnOk, length, slice_get};
ghost use Rattle.jc_types.specs.Accessors.{params_of};
ghost use Rattle.jc_overriding.specs.Viewing.{is_static};
ghost use Rattle.jc_exprs_locals.specs.Scoped.{local_of, locals_of};
ghost use Rattle.jc_stmts_spec.specs.Typed.{in_scope, method_place, param_locals, param_names_in, param_scope, params, this_local};
ghost use Rattle.jc_stmts_first.specs.Firsts.{first_locals, local_as, param_as};

use jc_exprs_locals::{Locals, ScopedLocal};
use jc_members::{is_static, own_type, owner};
use jc_rules::{Items, Place, Text, WantOfMemory};
use jc_typed::Local;
use jc_types::{MethodId, ParamName, Table, Ty, copy_type, method_at, method_params};
use std::alloc::Global;

/// Where a method stands.
pub fn method_place(table: &Table, method: MethodId) -> Place
    ensures { result ≡ method_place table.now method }
{
    match method_at(table, method) {
        Some(declaration) => declaration.place,
        None => Place { file: 0, at: 0 },
    }
}

// The instance of a method that isn't static.
fn push_this(
    alloc: Global,
    table: &Table,
    method: MethodId,
    out: &mut Items<Local>,
) -> Result<(), WantOfMemory>
    ensures { OnOk result (out.new ≡ out.old ++ this_local table.now method (is_static table.now method)) }
{
    if is_static(table, method) {
        return Ok(());
    }
    let name = Text::copied(alloc, "this")?;
    let ty = own_type(alloc, table, owner(table, method))?;
    out.push(Local {
        place: method_place(table, method),
        name,
        ty,
        is_final: true,
    })
}

fn param_local(alloc: Global, param: &ParamName, ty: &Ty) -> Result<Local, WantOfMemory>
    ensures { IfOk result (λ l. l ≡ param_as param.now ty.now) }
{
    let name = Text::copied(alloc, param.name.str())?;
    let ty = copy_type(alloc, ty)?;
    Ok(Local {
        place: param.place,
        name,
        ty,
        is_final: param.is_final,
    })
}

// Parameters by their names and types.
#[tactic(auto, using(jc_exprs_nodes::proofs::Appending::appended))]
fn push_params(
    alloc: Global,
    names: &[ParamName],
    types: &[Ty],
    out: &mut Items<Local>,
) -> Result<(), WantOfMemory>
    ensures { OnOk result (out.new ≡ out.old ++ param_locals names.now types.now) }
{
    let mut left = types;
    let mut rest = names;
    while let [name, more @ ..] = rest {
        let [ty, behind @ ..] = left else {
            return Ok(());
        };
        out.push(param_local(alloc, name, ty)?)?;
        left = behind;
        rest = more;
    }
    Ok(())
}

fn param_names(table: &Table, method: MethodId) -> &[ParamName]
    ensures { result.now ≡ param_names_in (slice_get table.now.methods method.0) }
{
    match method_at(table, method) {
        Some(declaration) => declaration.param_names.slice(),
        None => &[],
    }
}

// The parameters of a method.
fn params(alloc: Global, table: &Table, method: MethodId) -> Result<Items<Local>, WantOfMemory>
    ensures { IfOk result (λ ls. ls ≡ params table.now method) }
{
    let mut out = Items::new(alloc);
    let names = param_names(table, method);
    push_params(alloc, names, method_params(table, method), &mut out)?;
    Ok(out)
}

/// The locals of a method that are there before its body, by their numbers.
pub fn first_locals(
    alloc: Global,
    table: &Table,
    method: MethodId,
) -> Result<Items<Local>, WantOfMemory>
    ensures { IfOk result (λ ls. ls ≡ first_locals table.now method) }
{
    let mut out = Items::new(alloc);
    push_this(alloc, table, method, &mut out)?;
    let names = param_names(table, method);
    push_params(alloc, names, method_params(table, method), &mut out)?;
    Ok(out)
}

// A parameter of this number as it stands in scope.
fn scoped(alloc: Global, param: &Local, number: u32) -> Result<ScopedLocal, WantOfMemory>
    ensures { IfOk result (λ l. local_of l ≡ local_as param.now number) }
{
    let name = Text::copied(alloc, param.name.str())?;
    let ty = copy_type(alloc, &param.ty)?;
    Ok(ScopedLocal {
        name,
        number,
        ty,
        is_final: param.is_final,
        constant: None,
    })
}

fn next(number: u32) -> Result<u32, WantOfMemory>
    ensures { IfOk result (λ n. n ≡ number + 1) }
{
    match number.checked_add(1) {
        Some(number) => Ok(number),
        None => Err(WantOfMemory),
    }
}

// Parameters whose numbers begin with this one.
#[tactic(auto, using(crate::proofs::Scoping::scoping))]
fn scope_params(
    alloc: Global,
    locals: &mut Locals,
    first: u32,
    params: &[Local],
) -> Result<(), WantOfMemory>
    ensures { OnOk result (locals_of locals.new ≡ locals_of locals.old ++ in_scope first params.now) }
{
    let mut number = first;
    let mut rest = params;
    while let [param, more @ ..] = rest {
        locals.declare(alloc, scoped(alloc, param, number)?)?;
        number = next(number)?;
        rest = more;
    }
    Ok(())
}

// How many locals stand before the parameters.
fn before_params(table: &Table, method: MethodId) -> u32
    ensures { result ≡ length (this_local table.now method (is_static table.now method)) }
{
    if is_static(table, method) { 0 } else { 1 }
}

/// The parameters of a method in scope; `this` has no name there that could be looked up.
pub fn param_scope(alloc: Global, table: &Table, method: MethodId) -> Result<Locals, WantOfMemory>
    ensures { IfOk result (λ ls. locals_of ls ≡ param_scope table.now method) }
{
    let mut locals = Locals::new(alloc);
    let of_method = params(alloc, table, method)?;
    let first = before_params(table, method);
    scope_params(alloc, &mut locals, first, of_method.slice())?;
    Ok(locals)
}
