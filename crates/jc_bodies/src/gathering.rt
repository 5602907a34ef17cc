//! The bodies of all units.
ghost use Rattle.std.specs.Prelude.{◌≡◌, IfOk};
ghost use Rattle.jc_bodies.specs.Typed.{bodies_of};

use jc_declares::{Heads, SourceUnit};
use jc_groups::members_of;
use jc_rules::{Items, WantOfMemory};
use jc_stmts_bodies::{MethodBody, UnitTypes, bodies};
use jc_types::Table;
use std::alloc::Global;

/// The bodies of all units, in their order. They borrow the trees.
pub fn bodies_of<'a>(
    alloc: Global,
    table: &Table,
    heads: &Heads,
    units: &'a [SourceUnit],
) -> Result<Items<MethodBody<'a>>, WantOfMemory>
    ensures { IfOk result (λ it. it ≡ bodies_of table.now heads.now units.now) }
{
    let members = members_of(alloc, heads)?;
    let types = UnitTypes {
        heads,
        members: &members,
    };
    let mut list = Items::new(alloc);
    for number in 0..units.len() {
        let more = bodies(alloc, table, types, number as u64, &units[number])?;
        list.append(more)?;
    }
    Ok(list)
}
