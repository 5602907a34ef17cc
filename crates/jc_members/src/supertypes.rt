//! The supertypes of a type by their classes, found once.
ghost use Rattle.std.specs.Prelude.{◌≡◌, IfOk};
ghost use Rattle.jc_judge.specs.Views.{view};
ghost use Rattle.jc_overriding.specs.Overriding.{is_above, is_viewed};
ghost use Rattle.jc_overriding.specs.Viewing.{own_type, view_of_method};
ghost use Rattle.jc_members.specs.Supertypes.{IsSupertypes};

use crate::kinds::same_class;
use crate::viewing::{own_type, view_of_method, viewed};
use crate::walking::views_above;
use jc_overriding::MethodView;
use jc_rules::WantOfMemory;
use jc_sub::{class_of, view};
use jc_types::{ClassId, MethodId, Table, Ty, method_owner};
use std::alloc::Global;
use std::collections::HashMap;

/// A type, and its supertypes by their classes. Where `is_whole`, it has no other supertype.
#[derive(Drop)]
pub struct Supertypes {
    pub of: Ty,
    pub views: HashMap<u64, Ty>,
    pub is_whole: bool,
}

fn none_yet(alloc: Global, table: &Table, of: Ty) -> Supertypes
    ensures known { IsSupertypes table.now result }
    ensures same { result.of ≡ of }
{
    let _table = table;
    Supertypes {
        of,
        views: HashMap::new(alloc),
        is_whole: false,
    }
}

/// The supertypes of a captured type.
pub fn supertypes_of(alloc: Global, table: &Table, of: Ty) -> Result<Supertypes, WantOfMemory>
    ensures known { IfOk result (λ s. IsSupertypes table.now s) }
    ensures same { IfOk result (λ s. s.of ≡ of) }
{
    match class_of(&of) {
        None => Ok(none_yet(alloc, table, of)),
        Some(from) => {
            let walk = views_above(alloc, table, from, &of)?;
            Ok(Supertypes {
                of,
                views: walk.views,
                is_whole: walk.is_whole,
            })
        }
    }
}

/// The supertypes of a class inside of it.
pub fn own_supertypes(alloc: Global, table: &Table, k: ClassId) -> Result<Supertypes, WantOfMemory>
    ensures known { IfOk result (λ s. IsSupertypes table.now s) }
    ensures same { IfOk result (λ s. s.of ≡ own_type table.now k) }
{
    let own = own_type(alloc, table, k)?;
    supertypes_of(alloc, table, own)
}

/// A method as the type has it.
pub fn method_in(
    alloc: Global,
    table: &Table,
    above: &Supertypes,
    m: MethodId,
) -> Result<Option<MethodView>, WantOfMemory>
    requires { IsSupertypes table.now above.now }
    ensures { IfOk result (λ r. r ≡ view_of_method table.now above.now.of m) }
{
    let Some(k) = method_owner(table, m) else {
        return Ok(None);
    };
    if let Some(v) = above.views.get(&k.0) {
        return Ok(Some(viewed(alloc, table, m, v)?));
    }
    if above.is_whole {
        return Ok(None);
    }
    view_of_method(alloc, table, &above.of, m)
}

/// Whether the type has a view as a class.
pub fn has_view(
    alloc: Global,
    table: &Table,
    above: &Supertypes,
    l: ClassId,
) -> Result<bool, WantOfMemory>
    requires { IsSupertypes table.now above.now }
    ensures { IfOk result (λ r. r ≡ is_viewed (view table.now l above.now.of)) }
{
    if above.views.get(&l.0).is_some() {
        return Ok(true);
    }
    if above.is_whole {
        return Ok(false);
    }
    match view(alloc, table, l, &above.of)? {
        Some(_) => Ok(true),
        None => Ok(false),
    }
}

/// Whether class l is above class k, of which these are the supertypes, and another one.
pub fn is_above(
    alloc: Global,
    table: &Table,
    above: &Supertypes,
    k: ClassId,
    l: ClassId,
) -> Result<bool, WantOfMemory>
    requires known { IsSupertypes table.now above.now }
    requires own { above.now.of ≡ own_type table.now k }
    ensures { IfOk result (λ r. r ≡ is_above table.now k l) }
{
    if same_class(k, l) {
        return Ok(false);
    }
    has_view(alloc, table, above, l)
}
