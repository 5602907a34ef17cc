//! The bodies of a class and of its member types. The member types of the table go along with the declarations of them in the source.
ghost use Rattle.std.specs.Prelude.{◌≡◌, ◌++◌, IfOk, OnOk};
ghost use Rattle.jc_tree.specs.declared.statement.Member.{out-Member};
ghost use Rattle.jc_types.specs.Accessors.{members_of};
ghost use Rattle.jc_stmts_spec.specs.Bodies.{bodies_of, class_bodies};
ghost use Rattle.jc_stmts_bodies.specs.Flat.{behind_nested, nested_in, of_nested};

use crate::body::MethodBody;
use crate::initialisers::ClassNode;
use crate::methods::{push_implied, push_written};
use jc_rules::{Items, WantOfMemory};
use jc_tree::{Declaration, Member};
use jc_types::{ClassId, Table, class_at};
use std::alloc::Global;

fn class_members(table: &Table, class: ClassId) -> &[ClassId]
    ensures { result.now ≡ members_of table.now class }
{
    match class_at(table, class) {
        Some(found) => found.members.slice(),
        None => &[],
    }
}

#[tactic(auto, using(crate::proofs::Joining::joining))]
fn push_class<'a>(
    alloc: Global,
    list: &mut Items<MethodBody<'a>>,
    node: ClassNode<'_, 'a>,
) -> Result<(), WantOfMemory>
    ensures { OnOk result (list.new ≡ list.old ++ class_bodies node.entry.table.now node.entry.class node.entry.members.now) }
{
    push_implied(alloc, list, node)?;
    push_written(alloc, list, node)
}

/// The bodies of a declared class and of the types inside of it.
#[cycle(declarations)]
#[tactic(auto, using(crate::proofs::Joining::joining, crate::proofs::ByParts::declarations))]
pub fn push_declaration<'a>(
    alloc: Global,
    table: &Table,
    list: &mut Items<MethodBody<'a>>,
    class: ClassId,
    node: &'a Declaration,
) -> Result<(), WantOfMemory>
    ensures { OnOk result (list.new ≡ list.old ++ bodies_of node.now table.now class) }
{
    let members = node.members.slice();
    push_class(
        alloc,
        list,
        ClassNode {
            table,
            class,
            members,
        },
    )?;
    push_nested(alloc, table, list, class_members(table, class), members)
}

/// The bodies of a member, if it is a type: the first class is its own. Tells the classes that are left.
#[cycle(declarations)]
#[tactic(auto, using(crate::proofs::Joining::joining, crate::proofs::Parts::members))]
fn push_member<'a, 'c>(
    alloc: Global,
    table: &Table,
    list: &mut Items<MethodBody<'a>>,
    classes: &'c [ClassId],
    node: &'a Member,
) -> Result<&'c [ClassId], WantOfMemory>
    ensures bodies { OnOk result (list.new ≡ list.old ++ of_nested table.now (out-Member node.now) classes.now) }
    ensures left { IfOk result (λ r. r.now ≡ behind_nested (out-Member node.now) classes.now) }
{
    match node {
        Member::Nested(inner) => {
            let [class, more @ ..] = classes else {
                return Ok(classes);
            };
            push_declaration(alloc, table, list, *class, inner)?;
            Ok(more)
        }
        Member::Semicolon { .. } => Ok(classes),
        Member::Initialiser { .. } => Ok(classes),
        Member::Fields(_) => Ok(classes),
        Member::Bare { .. } => Ok(classes),
        Member::Method { .. } => Ok(classes),
    }
}

#[cycle(declarations)]
#[tactic(auto, using(crate::proofs::Joining::joining))]
fn push_nested<'a>(
    alloc: Global,
    table: &Table,
    list: &mut Items<MethodBody<'a>>,
    classes: &[ClassId],
    nodes: &'a [Member],
) -> Result<(), WantOfMemory>
    ensures { OnOk result (list.new ≡ list.old ++ nested_in table.now nodes.now classes.now) }
{
    let mut left = classes;
    for node in nodes {
        left = push_member(alloc, table, list, left, node)?;
    }
    Ok(())
}
