//! Erased types as types (JLS 4.6, 4.8).
ghost use Rattle.std.specs.Prelude.{◌≡◌, [], IfOk};
ghost use Rattle.jc_types.specs.Erasing.{erasure};
ghost use Rattle.jc_overriding.specs.Viewing.{base_type, erased_type, plain_class, with_dims};

use jc_rules::{Items, WantOfMemory};
use jc_types::{Base, ClassId, Env, Erased, Table, Ty, VarId, array_over, class_vars, erasure};
use std::alloc::Global;

// A class as a type: raw, where it has parameters.
fn plain_class(alloc: Global, table: &Table, id: ClassId, vars: &[VarId]) -> Ty
    ensures { result ≡ plain_class table.now id vars.now }
{
    match vars {
        [] => Ty::Class {
            id,
            args: Items::new(alloc),
        },
        [_, ..] => Ty::Raw { id },
    }
}

fn base_type(alloc: Global, table: &Table, base: Base) -> Ty
    ensures { result ≡ base_type table.now base }
{
    match base {
        Base::Prim(p) => Ty::Prim(p),
        Base::Class(id) => plain_class(alloc, table, id, class_vars(table, id)),
        Base::NullTy => Ty::NullTy,
    }
}

#[tactic(auto, using(jc_members::proofs::Dims::with_some_dims))]
fn with_dims(alloc: Global, dims: u64, ty: Ty) -> Result<Ty, WantOfMemory>
    ensures { IfOk result (λ r. r ≡ with_dims dims ty) }
{
    if dims == 0 {
        return Ok(ty);
    }
    array_over(alloc, ty, dims - 1)
}

/// An erased type as a type: a generic class is raw there.
pub fn erased_type(alloc: Global, table: &Table, erased: Erased) -> Result<Ty, WantOfMemory>
    ensures { IfOk result (λ r. r ≡ erased_type table.now erased) }
{
    let base = base_type(alloc, table, erased.base);
    with_dims(alloc, erased.dims as u64, base)
}

/// The erasure of a declared type, which names no captured variable.
pub fn declared_erasure(alloc: Global, table: &Table, ty: &Ty) -> Erased
    ensures { result ≡ erasure table.now [] ty.now }
{
    let env = Env {
        bounds: Items::new(alloc),
    };
    erasure(table, &env, ty)
}
