//! The constructors of a class (JLS 8.8, 15.9.3).
ghost use Rattle.std.specs.Prelude.{◌≡◌, ◌++◌, IfOk, map};
ghost use Rattle.jc_types.specs.Accessors.{bounds_of, method_kind_of};
ghost use Rattle.jc_resolve_sites.specs.Constructors.{constructor_ids, diamond_vars, diamond_view, is_constructor_kind};

use jc_members::{MethodView, own_type};
use jc_rules::{Items, WantOfMemory};
use jc_types::{
    ClassId, MethodId, MethodKind, Table, Ty, VarId, class_methods, class_vars, copy_types,
    declared_bounds, is_variable_arity, method_kind, method_params, method_thrown, method_vars,
};
use std::alloc::Global;

fn is_constructor(table: &Table, m: MethodId) -> bool
    ensures { result ≡ is_constructor_kind (method_kind_of table.now m) }
{
    match method_kind(table, m) {
        Some(kind) => match kind {
            MethodKind::Constructor => true,
            MethodKind::ImpliedConstructor => true,
            _ => false,
        },
        None => false,
    }
}

/// The constructors of a class, written or implied, in the order of the table.
pub fn constructor_ids(
    alloc: Global,
    table: &Table,
    class: ClassId,
) -> Result<Items<MethodId>, WantOfMemory>
    ensures { IfOk result (λ r. r ≡ constructor_ids table.now class) }
{
    let mut list = Items::new(alloc);
    let mut rest = class_methods(table, class);
    while let [m, more @ ..] = rest {
        if is_constructor(table, *m) {
            list.push(*m)?;
        }
        rest = more;
    }
    Ok(list)
}

// The type parameters of a constructor's class, and then its own.
fn diamond_vars(
    alloc: Global,
    table: &Table,
    class: ClassId,
    m: MethodId,
) -> Result<Items<VarId>, WantOfMemory>
    ensures { IfOk result (λ r. r ≡ diamond_vars table.now class m) }
{
    let mut list = Items::of(class_vars(table, class).to_vec(alloc)?);
    let own = Items::of(method_vars(table, m).to_vec(alloc)?);
    list.append(own)?;
    Ok(list)
}

fn declared_of(
    alloc: Global,
    table: &Table,
    vars: &[VarId],
) -> Result<Items<Items<Ty>>, WantOfMemory>
    ensures { IfOk result (λ r. r ≡ map (bounds_of table.now) vars.now) }
{
    let mut list = Items::new(alloc);
    let mut rest = vars;
    while let [v, more @ ..] = rest {
        list.push(copy_types(alloc, declared_bounds(table, *v))?)?;
        rest = more;
    }
    Ok(list)
}

/// The generic method that stands for a constructor where a creation has a diamond (JLS 15.9.3).
pub fn diamond_view(
    alloc: Global,
    table: &Table,
    class: ClassId,
    m: MethodId,
) -> Result<MethodView, WantOfMemory>
    ensures { IfOk result (λ r. r ≡ diamond_view table.now class m) }
{
    let vars = diamond_vars(alloc, table, class, m)?;
    let bounds = declared_of(alloc, table, vars.slice())?;
    let params = copy_types(alloc, method_params(table, m))?;
    let result = own_type(alloc, table, class)?;
    let thrown = copy_types(alloc, method_thrown(table, m))?;
    Ok(MethodView {
        id: m,
        vars,
        bounds,
        params,
        result: Some(result),
        thrown,
        variable: is_variable_arity(table, m),
    })
}
