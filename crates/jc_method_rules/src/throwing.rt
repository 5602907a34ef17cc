//! The types that methods throw (JLS 8.4.6, 8.4.8.3, 11.1.1).
ghost use Rattle.std.specs.Prelude.{◌≡◌, ◌||◌, IfOk};
ghost use Rattle.std.specs.List.{list_any};
ghost use Rattle.jc_header_rules.specs.Results.{class_of_base, is_throwable, is_unchecked, is_within, thrown_class, thrown_fits};

use jc_members::{MethodView, erased_in, own_type};
use jc_rules::{Items, WantOfMemory};
use jc_sub::view;
use jc_types::{Base, ClassId, Env, Table, Ty, class_named, erasure};
use std::alloc::Global;

fn class_of_base(base: Base) -> ClassId
    ensures { result ≡ class_of_base base }
{
    match base {
        Base::Class(k) => k,
        Base::Prim(_) => ClassId(0),
        Base::NullTy => ClassId(0),
    }
}

/// The class of a thrown type's erasure, as the view has its type parameters.
pub fn thrown_class(
    alloc: Global,
    table: &Table,
    v: &MethodView,
    t: &Ty,
) -> Result<ClassId, WantOfMemory>
    ensures { IfOk result (λ r. r ≡ thrown_class table.now v.now t.now) }
{
    let env = Env {
        bounds: Items::new(alloc),
    };
    let t = erased_in(alloc, table, v, t)?;
    Ok(class_of_base(erasure(table, &env, &t).base))
}

// Whether class k is class l, or below it.
fn is_within(alloc: Global, table: &Table, l: ClassId, k: ClassId) -> Result<bool, WantOfMemory>
    ensures { IfOk result (λ r. r ≡ is_within table.now l k) }
{
    let own = own_type(alloc, table, k)?;
    match view(alloc, table, l, &own)? {
        Some(_) => Ok(true),
        None => Ok(false),
    }
}

// Exceptions that need no clause.
fn is_unchecked(alloc: Global, table: &Table, k: ClassId) -> Result<bool, WantOfMemory>
    ensures { IfOk result (λ r. r ≡ is_unchecked table.now k) }
{
    let runtime = class_named(table, "java.lang.RuntimeException");
    if is_within(alloc, table, runtime, k)? {
        return Ok(true);
    }
    is_within(alloc, table, class_named(table, "java.lang.Error"), k)
}

/// Whether a class is Throwable or below it.
pub fn is_throwable(alloc: Global, table: &Table, k: ClassId) -> Result<bool, WantOfMemory>
    ensures { IfOk result (λ r. r ≡ is_throwable table.now k) }
{
    is_within(alloc, table, class_named(table, "java.lang.Throwable"), k)
}

// Whether a class is within one that a clause has.
fn is_covered(
    alloc: Global,
    table: &Table,
    k: ClassId,
    b: &MethodView,
) -> Result<bool, WantOfMemory>
    ensures { IfOk result (λ r. r ≡ list_any (λ u. is_within table.now (thrown_class table.now b.now u) k) b.now.thrown) }
{
    let mut rest = b.thrown.slice();
    while let [u, more @ ..] = rest {
        let l = thrown_class(alloc, table, b, u)?;
        if is_within(alloc, table, l, k)? {
            return Ok(true);
        }
        rest = more;
    }
    Ok(false)
}

fn may_be_thrown(
    alloc: Global,
    table: &Table,
    k: ClassId,
    b: &MethodView,
) -> Result<bool, WantOfMemory>
    ensures { IfOk result (λ r. r ≡ (is_unchecked table.now k || list_any (λ u. is_within table.now (thrown_class table.now b.now u) k) b.now.thrown)) }
{
    if is_unchecked(alloc, table, k)? {
        return Ok(true);
    }
    is_covered(alloc, table, k, b)
}

/// Whether each checked exception of a is of a class that b's clause has, or below one.
pub fn thrown_fits(
    alloc: Global,
    table: &Table,
    a: &MethodView,
    b: &MethodView,
) -> Result<bool, WantOfMemory>
    ensures { IfOk result (λ r. r ≡ thrown_fits table.now a.now b.now) }
{
    let mut rest = a.thrown.slice();
    while let [t, more @ ..] = rest {
        let k = thrown_class(alloc, table, a, t)?;
        if !may_be_thrown(alloc, table, k, b)? {
            return Ok(false);
        }
        rest = more;
    }
    Ok(true)
}
