//! The blocks of written methods and constructors, in their order.
ghost use Rattle.std.specs.Prelude.{◌≡◌, ◌++◌, IfOk, OnOk};
ghost use Rattle.jc_tree.specs.declared.statement.Member.{out-Member};
ghost use Rattle.jc_stmts_spec.specs.Bodies.{block_of, blocks};

use jc_rules::{Items, WantOfMemory};
use jc_tree::{Member, Stmt};
use std::alloc::Global;
use std::marker::Model;

/// The block of a written method, if it has one.
#[derive(Drop)]
pub struct MethodBlock<'a> {
    pub items: Option<&'a [Stmt]>,
}

impl<'a> Model for MethodBlock<'a> {
    ghost use Rattle.std.specs.Prelude.{List, Option};
    ghost use Rattle.std.specs.Option.{option_copied};
    ghost use Rattle.jc_tree.specs.declared.statement.Stmt.{Stmt};
    ghost use Rattle.jc_tree.specs.contracts.statement.Stmt as stmt;
    ghost use Rattle.std.specs.Coded.{codes};

    ghost Value = { Option (List Stmt) };

    ghost coded = { Prim.hlevel (codes, stmt.the_row.coded) };

    ghost view = { λ b. option_copied b.items };
}

#[tactic(auto, using(crate::proofs::Joining::joining, crate::proofs::Parts::members))]
fn push_block<'a>(list: &mut Items<MethodBlock<'a>>, member: &'a Member) -> Result<(), WantOfMemory>
    ensures { OnOk result (list.new ≡ list.old ++ block_of (out-Member member.now)) }
{
    match member {
        Member::Bare { .. } => list.push(MethodBlock { items: None }),
        Member::Method { items, .. } => list.push(MethodBlock {
            items: Some(items.slice()),
        }),
        Member::Semicolon { .. } => Ok(()),
        Member::Initialiser { .. } => Ok(()),
        Member::Fields(_) => Ok(()),
        Member::Nested(_) => Ok(()),
    }
}

/// The block of each written method and constructor among some members.
#[tactic(auto, using(crate::proofs::Joining::joining))]
pub fn blocks<'a>(
    alloc: Global,
    members: &'a [Member],
) -> Result<Items<MethodBlock<'a>>, WantOfMemory>
    ensures { IfOk result (λ it. it ≡ blocks members.now) }
{
    let mut list = Items::new(alloc);
    for member in members {
        push_block(&mut list, member)?;
    }
    Ok(list)
}
