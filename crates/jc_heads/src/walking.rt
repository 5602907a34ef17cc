//! The walk over declarations, each before those in it.
ghost use Rattle.std.specs.Prelude.{◌≡◌, map, OnOk};
ghost use Rattle.jc_declares.specs.Sites.{Membered, membered, walked, implied_forms, implied_sites, sites_of_declaration};
ghost use Rattle.jc_declares.specs.Heads.{heads_of};
ghost use Rattle.jc_heads.specs.Joining.{joined_heads, counted};

use crate::classes::within;
use crate::lists::{push_class, push_fields, push_implied_if, push_method};
use crate::members::{is_constructor_implied, is_static_initialiser_implied};
use jc_declares::{Heads, Standing};
use jc_rules::WantOfMemory;
use jc_tree::{Declaration, DeclarationHead, Member};
use std::alloc::Global;

/// The methods of a type that no source writes, its static initialiser first.
fn push_unwritten(
    heads: &mut Heads,
    at: &Standing,
    head: &DeclarationHead,
    members: &[Member],
) -> Result<(), WantOfMemory>
    ensures { OnOk result (heads.new ≡ joined_heads heads.old (heads_of (walked (map implied_sites (implied_forms head.now (map membered members.now))) at.now (counted heads.old)))) }
{
    push_implied_if(heads, at, is_static_initialiser_implied(head, members))?;
    push_implied_if(heads, at, is_constructor_implied(head, members))?;
    Ok(())
}

/// A type, and then what its body declares.
#[cycle(walk)]
pub fn push_declaration(
    alloc: Global,
    heads: &mut Heads,
    at: &Standing,
    declaration: &Declaration,
) -> Result<(), WantOfMemory>
    ensures { OnOk result (heads.new ≡ joined_heads heads.old (heads_of (sites_of_declaration declaration.now at.now (counted heads.old)))) }
{
    let class = heads.classes.len() as u64;
    let scope = heads.scopes.len() as u64;
    push_class(alloc, heads, at, &declaration.head)?;
    let inner = within(alloc, &declaration.head, at, class, scope)?;
    push_unwritten(
        heads,
        &inner,
        &declaration.head,
        declaration.members.slice(),
    )?;
    push_members(alloc, heads, &inner, declaration.members.slice())?;
    Ok(())
}

#[cycle(walk)]
fn push_members(
    alloc: Global,
    heads: &mut Heads,
    at: &Standing,
    members: &[Member],
) -> Result<(), WantOfMemory>
    ensures { OnOk result (heads.new ≡ joined_heads heads.old (heads_of (walked (map (λ (m : Membered). m.walk) (map membered members.now)) at.now (counted heads.old)))) }
{
    for member in members {
        push_member(alloc, heads, at, member)?;
    }
    Ok(())
}

/// A member. The statements of blocks declare nothing.
#[cycle(walk)]
fn push_member(
    alloc: Global,
    heads: &mut Heads,
    at: &Standing,
    member: &Member,
) -> Result<(), WantOfMemory>
    ensures { OnOk result (heads.new ≡ joined_heads heads.old (heads_of ((membered member.now).walk at.now (counted heads.old)))) }
{
    match member {
        Member::Semicolon { .. } => Ok(()),
        Member::Initialiser { .. } => Ok(()),
        Member::Fields(vars) => push_fields(alloc, heads, at, vars),
        Member::Bare { head } => push_method(alloc, heads, at, head),
        Member::Method { head, .. } => push_method(alloc, heads, at, head),
        Member::Nested(declaration) => push_declaration(alloc, heads, at, declaration),
    }
}
