//! Names and descriptors of methods (JLS 4.6, JVMS 4.3.3).
ghost use Rattle.std.specs.Prelude.{◌≡◌};
ghost use Rattle.std.specs.Option.{option_copied};
ghost use Rattle.jc_bridges_spec.specs.Descriptors.{is_called_as, is_private, is_selectable, same_base, same_descriptor, same_erased, same_erasure, same_erasures, same_primitive, same_results};

use jc_members::{access_of, is_instance};
use jc_rules::Items;
use jc_types::{
    Access, Base, Env, Erased, MethodId, Primitive, Table, Ty, erasure, method_name, method_params,
    method_result,
};
use std::alloc::Global;

fn same_primitive(p: Primitive, q: Primitive) -> bool
    ensures { result ≡ same_primitive p q }
{
    match (p, q) {
        (Primitive::Boolean, Primitive::Boolean) => true,
        (Primitive::Byte, Primitive::Byte) => true,
        (Primitive::Short, Primitive::Short) => true,
        (Primitive::Char, Primitive::Char) => true,
        (Primitive::Int, Primitive::Int) => true,
        (Primitive::Long, Primitive::Long) => true,
        _ => false,
    }
}

fn same_base(e: Base, f: Base) -> bool
    ensures { result ≡ same_base e f }
{
    match (e, f) {
        (Base::Prim(p), Base::Prim(q)) => same_primitive(p, q),
        (Base::Class(k), Base::Class(c)) => k.0 == c.0,
        (Base::NullTy, Base::NullTy) => true,
        _ => false,
    }
}

fn same_erased(e: Erased, f: Erased) -> bool
    ensures { result ≡ same_erased e f }
{
    e.dims == f.dims && same_base(e.base, f.base)
}

/// Whether two types have one erasure.
#[tactic(auto, unfolding(jc_bridges_spec::specs::Descriptors::same_erasure))]
pub fn same_erasure(alloc: Global, table: &Table, s: &Ty, t: &Ty) -> bool
    ensures { result ≡ same_erasure table.now s.now t.now }
{
    let none = Env {
        bounds: Items::new(alloc),
    };
    same_erased(erasure(table, &none, s), erasure(table, &none, t))
}

fn same_erasures(alloc: Global, table: &Table, some: &[Ty], others: &[Ty]) -> bool
    ensures { result ≡ same_erasures table.now some.now others.now }
{
    let mut rest = some;
    let mut left = others;
    while let [s, more @ ..] = rest {
        match left {
            [] => return false,
            [t, further @ ..] => {
                if !same_erasure(alloc, table, s, t) {
                    return false;
                }
                left = further;
            }
        }
        rest = more;
    }
    left.is_empty()
}

fn same_results(alloc: Global, table: &Table, s: Option<&Ty>, t: Option<&Ty>) -> bool
    ensures { result ≡ same_results table.now (option_copied s.entry) (option_copied t.entry) }
{
    match s {
        None => t.is_none(),
        Some(s) => match t {
            None => false,
            Some(t) => same_erasure(alloc, table, s, t),
        },
    }
}

/// Whether two methods have one descriptor, as they are declared.
pub fn same_descriptor(alloc: Global, table: &Table, m: MethodId, n: MethodId) -> bool
    ensures { result ≡ same_descriptor table.now m n }
{
    same_erasures(
        alloc,
        table,
        method_params(table, m),
        method_params(table, n),
    ) && same_results(
        alloc,
        table,
        method_result(table, m),
        method_result(table, n),
    )
}

/// Whether two methods have one name and one descriptor.
pub fn is_called_as(alloc: Global, table: &Table, m: MethodId, n: MethodId) -> bool
    ensures { result ≡ is_called_as table.now m n }
{
    method_name(table, m) == method_name(table, n) && same_descriptor(alloc, table, m, n)
}

fn is_private(access: Access) -> bool
    ensures { result ≡ is_private access }
{
    match access {
        Access::Private => true,
        _ => false,
    }
}

/// Whether a call by the class of its object may select a method.
pub fn is_selectable(table: &Table, m: MethodId) -> bool
    ensures { result ≡ is_selectable table.now m }
{
    is_instance(table, m) && !is_private(access_of(table, m))
}
