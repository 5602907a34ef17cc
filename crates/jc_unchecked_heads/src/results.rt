//! Whether the result of a method stands for that of another one only by an unchecked conversion or as its erasure.
ghost use Rattle.std.specs.Prelude.{◌≡◌, Some, IfOk};
ghost use Rattle.std.specs.Option.{option_copied};
ghost use Rattle.jc_overriding.specs.Viewing.{own_type};
ghost use Rattle.jc_members.specs.Supertypes.{IsSupertypes};
ghost use Rattle.jc_unchecked_spec.specs.Heads.{are_open, are_open_views, is_open_result};

use jc_members::{MethodView, Supertypes, adapted, method_in};
use jc_rules::{Items, WantOfMemory};
use jc_sub::is_primitive;
use jc_types::{ClassId, Env, MethodId, Table, Ty};
use jc_unchecked_casts::{Scene, is_below};
use std::alloc::Global;

// Whether no proof tree says that result s of a is below result t of b.
fn is_open_result(
    alloc: Global,
    table: &Table,
    a: &MethodView,
    b: &MethodView,
    s: &Ty,
    t: &Ty,
) -> Result<bool, WantOfMemory>
    ensures { IfOk result (λ r. r ≡ is_open_result table.now a.now b.now (Some s.now) (Some t.now)) }
{
    if is_primitive(s) || is_primitive(t) {
        return Ok(false);
    }
    let env = Env {
        bounds: Items::new(alloc),
    };
    let scene = Scene {
        alloc,
        table,
        env: &env,
    };
    let wanted = adapted(alloc, a, b, t)?;
    let below = is_below(&scene, s, &wanted)?;
    Ok(!below)
}

fn are_open_results(
    alloc: Global,
    table: &Table,
    a: &MethodView,
    b: &MethodView,
) -> Result<bool, WantOfMemory>
    ensures { IfOk result (λ r. r ≡ is_open_result table.now a.now b.now a.now.result b.now.result) }
{
    match &a.result {
        Some(s) => match &b.result {
            Some(t) => is_open_result(alloc, table, a, b, s, t),
            None => Ok(false),
        },
        None => Ok(false),
    }
}

fn are_open_views(
    alloc: Global,
    table: &Table,
    a: Option<&MethodView>,
    b: Option<&MethodView>,
) -> Result<bool, WantOfMemory>
    ensures { IfOk result (λ r. r ≡ are_open_views table.now (option_copied a.entry) (option_copied b.entry)) }
{
    match a {
        Some(a) => match b {
            Some(b) => are_open_results(alloc, table, a, b),
            None => Ok(false),
        },
        None => Ok(false),
    }
}

/// The same of methods n and m as class k has both, of which these are the supertypes.
pub fn are_open(
    alloc: Global,
    table: &Table,
    above: &Supertypes,
    k: ClassId,
    n: MethodId,
    m: MethodId,
) -> Result<bool, WantOfMemory>
    requires known { IsSupertypes table.now above.now }
    requires own { above.now.of ≡ own_type table.now k }
    ensures { IfOk result (λ r. r ≡ are_open table.now k n m) }
{
    let a = method_in(alloc, table, above, n)?;
    let b = method_in(alloc, table, above, m)?;
    are_open_views(alloc, table, a.as_ref(), b.as_ref())
}
