//! Erasure as a type (JLS 4.6).
ghost use Rattle.std.specs.Prelude.{◌≡◌, IfOk, map};
ghost use Rattle.std.specs.Option.{option_map, option_copied};
ghost use Rattle.jc_types.specs.Erasing.{erasure};
ghost use Rattle.jc_overriding.specs.Viewing.{base_type, erased_type, plain, plain_class, with_dims};

use jc_rules::{Items, WantOfMemory};
use jc_types::{Base, ClassId, Env, Table, Ty, VarId, array_over, class_vars, erasure};
use std::alloc::Global;

// A class as a type: raw, where it has parameters.
fn plain_class(alloc: Global, table: &Table, id: ClassId, vars: &[VarId]) -> Ty
    ensures { result ≡ plain_class table.now id vars.now }
{
    match vars {
        [] => Ty::Class {
            id,
            args: Items::new(alloc),
        },
        [_, ..] => Ty::Raw { id },
    }
}

fn base_type(alloc: Global, table: &Table, base: Base) -> Ty
    ensures { result ≡ base_type table.now base }
{
    match base {
        Base::Prim(p) => Ty::Prim(p),
        Base::Class(id) => plain_class(alloc, table, id, class_vars(table, id)),
        Base::NullTy => Ty::NullTy,
    }
}

/// An array type of so many dimensions over a type, which is itself where there are none.
#[tactic(auto, using(crate::proofs::Dims::with_some_dims))]
pub fn with_dims(alloc: Global, dims: u64, t: Ty) -> Result<Ty, WantOfMemory>
    ensures { IfOk result (λ r. r ≡ with_dims dims t) }
{
    if dims == 0 {
        return Ok(t);
    }
    array_over(alloc, t, dims - 1)
}

/// The erasure of a type, as a type, with the bounds of captured variables: a generic class is raw there (JLS 4.6, 4.8).
pub fn plain_within(alloc: Global, table: &Table, env: &Env, t: &Ty) -> Result<Ty, WantOfMemory>
    ensures { IfOk result (λ r. r ≡ erased_type table.now (erasure table.now env.now.bounds t.now)) }
{
    let erased = erasure(table, env, t);
    let base = base_type(alloc, table, erased.base);
    with_dims(alloc, erased.dims as u64, base)
}

/// The erasure of a declared type, as a type.
pub fn plain(alloc: Global, table: &Table, t: &Ty) -> Result<Ty, WantOfMemory>
    ensures { IfOk result (λ r. r ≡ plain table.now t.now) }
{
    let env = Env {
        bounds: Items::new(alloc),
    };
    plain_within(alloc, table, &env, t)
}

/// The erasure of each of these types.
pub fn plain_all(alloc: Global, table: &Table, types: &[Ty]) -> Result<Items<Ty>, WantOfMemory>
    ensures { IfOk result (λ r. r ≡ map (plain table.now) types.now) }
{
    let mut out = Items::new(alloc);
    for i in 0..types.len() {
        out.push(plain(alloc, table, &types[i])?)?;
    }
    Ok(out)
}

/// The erasure of a type, if there is one.
pub fn plain_option(
    alloc: Global,
    table: &Table,
    t: Option<&Ty>,
) -> Result<Option<Ty>, WantOfMemory>
    ensures { IfOk result (λ r. r ≡ option_map (plain table.now) (option_copied t.entry)) }
{
    match t {
        Some(t) => Ok(Some(plain(alloc, table, t)?)),
        None => Ok(None),
    }
}
