//! The bodies of a unit.
ghost use Rattle.std.specs.Prelude.{◌≡◌, ◌++◌, IfOk, OnOk};
ghost use Rattle.jc_groups.specs.Members.{AreMembers};
ghost use Rattle.jc_stmts_spec.specs.Bodies.{bodies};
ghost use Rattle.jc_stmts_bodies.specs.Flat.{behind_top, of_top, of_tops};

use crate::body::MethodBody;
use crate::classes::push_declaration;
use jc_declares::{Heads, SourceUnit};
use jc_groups::Members;
use jc_rules::{Items, WantOfMemory};
use jc_tree::TopLevel;
use jc_types::{ClassId, Table};
use std::alloc::Global;

/// What tells the types of a unit: the heads of the program's declarations, and what each unit declares.
#[derive(Clone, Copy)]
pub struct UnitTypes<'a> {
    pub heads: &'a Heads,
    pub members: &'a Members,
}

/// The bodies of a declaration of a unit: the first number is that of its class. Tells the numbers that are left.
fn push_top<'a, 'c>(
    alloc: Global,
    table: &Table,
    list: &mut Items<MethodBody<'a>>,
    classes: &'c [u64],
    node: &'a TopLevel,
) -> Result<&'c [u64], WantOfMemory>
    ensures bodies { OnOk result (list.new ≡ list.old ++ of_top table.now node.now classes.now) }
    ensures left { IfOk result (λ r. r.now ≡ behind_top node.now classes.now) }
{
    match node {
        TopLevel::Semicolon { .. } => Ok(classes),
        TopLevel::Declaration(inner) => {
            let [class, more @ ..] = classes else {
                return Ok(classes);
            };
            push_declaration(alloc, table, list, ClassId(*class), inner)?;
            Ok(more)
        }
    }
}

#[tactic(auto, using(crate::proofs::Joining::joining))]
fn tops<'a>(
    alloc: Global,
    table: &Table,
    classes: &[u64],
    nodes: &'a [TopLevel],
) -> Result<Items<MethodBody<'a>>, WantOfMemory>
    ensures { IfOk result (λ it. it ≡ of_tops table.now nodes.now classes.now) }
{
    let mut list = Items::new(alloc);
    let mut left = classes;
    for node in nodes {
        left = push_top(alloc, table, &mut list, left, node)?;
    }
    Ok(list)
}

/// The bodies of the unit of this number, in the order of its types: of each the methods that no source writes, then the written ones, then those of its member types.
#[tactic(auto, using(crate::proofs::ByParts::whole))]
pub fn bodies<'a>(
    alloc: Global,
    table: &Table,
    types: UnitTypes,
    number: u64,
    unit: &'a SourceUnit,
) -> Result<Items<MethodBody<'a>>, WantOfMemory>
    requires { AreMembers types.heads.now types.members.now }
    ensures { IfOk result (λ it. it ≡ bodies table.now types.entry.heads.now number unit.now) }
{
    let classes = types.members.tops.group(number);
    tops(alloc, table, classes, unit.unit.types.slice())
}
