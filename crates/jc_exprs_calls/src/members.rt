//! The methods of a type of which a call asks one (JLS 15.12.1).
ghost use Rattle.std.specs.Prelude.{◌≡◌, IfOk};
ghost use Rattle.jc_members.specs.Named.{IsMethodIndex};
ghost use Rattle.jc_exprs_spec.specs.Calls.{methods_by, without_private};
ghost use Rattle.jc_exprs_worlds.specs.Scenes.{world_of};

use crate::asking::Methods;
use jc_exprs_fields::is_private;
use jc_members::{MethodView, access_of, members};
use jc_resolve::copy_view;
use jc_rules::{Items, Text, WantOfMemory};
use jc_types::{Table, Ty};
use std::alloc::Global;

// Of these methods the ones that aren't private.
#[tactic(auto, using(jc_exprs_nodes::proofs::Appending::appended))]
fn without_private(
    alloc: Global,
    table: &Table,
    members: &[MethodView],
) -> Result<Items<MethodView>, WantOfMemory>
    ensures { IfOk result (λ r. r ≡ without_private table.now members.now) }
{
    let mut left = Items::new(alloc);
    let mut rest = members;
    while let [member, more @ ..] = rest {
        if !is_private(access_of(table, member.id)) {
            left.push(copy_view(alloc, member)?)?;
        }
        rest = more;
    }
    Ok(left)
}

/// The methods of a name that a type has, by its bounds alone where that is told.
#[tactic(auto, unfolding(jc_exprs_worlds::specs::Scenes::world_of))]
pub fn methods_by(
    alloc: Global,
    methods: &Methods,
    by_bounds: bool,
    ty: &Ty,
    name: &Text,
) -> Result<Items<MethodView>, WantOfMemory>
    requires { IsMethodIndex methods.now.scene.now.table.now methods.now.index.now }
    ensures { IfOk result (λ r. r ≡ methods_by (world_of methods.now.scene.now) by_bounds ty.now name.now) }
{
    let table = methods.scene.table;
    let all = members(alloc, table, methods.index, ty, name)?;
    if by_bounds {
        return without_private(alloc, table, all.slice());
    }
    Ok(all)
}
