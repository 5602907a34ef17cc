//! The arguments of an actual type as a class.
ghost use Rattle.std.specs.Prelude.{◌≡◌, IfOk};
ghost use Rattle.jc_judge.specs.Kinds.{class_of};
ghost use Rattle.jc_judge.specs.Views.{is_class};
ghost use Rattle.jc_constraints.specs.Constraints.{args_for, args_in, own_args};

use crate::standing::Standing;
use jc_lub::{args_of, up_view};
use jc_rules::{Items, WantOfMemory};
use jc_sub::class_of;
use jc_types::{Arg, Bounds, ClassId, Table, Ty, copy_args};
use std::alloc::Global;

pub fn is_of_class(t: &Ty, k: ClassId) -> bool
    ensures { result ≡ is_class k (class_of t.now) }
{
    match class_of(t) {
        None => false,
        Some(id) => id.0 == k.0,
    }
}

pub fn args_in(alloc: Global, view: Option<Ty>) -> Result<Items<Arg>, WantOfMemory>
    ensures { IfOk result (λ r. r ≡ args_in view) }
{
    match view {
        None => Ok(Items::new(alloc)),
        Some(t) => copy_args(alloc, args_of(&t)),
    }
}

fn own_args(alloc: Global, k: ClassId, t: &Ty) -> Result<Items<Arg>, WantOfMemory>
    ensures { IfOk result (λ r. r ≡ own_args k t.now) }
{
    if is_of_class(t, k) {
        copy_args(alloc, args_of(t))
    } else {
        Ok(Items::new(alloc))
    }
}

/// The arguments of an actual type as this class. A raw view has none.
pub fn args_for(
    alloc: Global,
    table: &Table,
    env: &[Bounds],
    standing: Standing,
    k: ClassId,
    t: &Ty,
) -> Result<Items<Arg>, WantOfMemory>
    ensures { IfOk result (λ r. r ≡ args_for table.now env.now standing k t.now) }
{
    match standing {
        Standing::Below => args_in(alloc, up_view(alloc, table, env, k, t)?),
        Standing::Same => own_args(alloc, k, t),
        Standing::Above => own_args(alloc, k, t),
    }
}
