//! The walk over declarations, each before those in it.
ghost use Rattle.std.specs.Prelude.{◌≡◌, map, OnOk};
ghost use Rattle.jc_declares.specs.Sites.{Membered, membered, walked, implied_forms, implied_sites, sites_of_declaration};
ghost use Rattle.jc_sites.specs.Joining.{with_sites, counted};

use crate::members::{
    push_class, push_declared, push_form_if, push_headed, push_initialiser, push_method,
};
use crate::parts::MethodForm;
use crate::places::Sites;
use jc_declares::Standing;
use jc_heads::{is_constructor_implied, is_static_initialiser_implied, within};
use jc_rules::WantOfMemory;
use jc_tree::{Declaration, DeclarationHead, Member};
use std::alloc::Global;

/// The methods of a type that no source writes, its static initialiser first.
fn push_unwritten<'a>(
    sites: &mut Sites<'a>,
    at: &Standing,
    head: &DeclarationHead,
    members: &[Member],
) -> Result<(), WantOfMemory>
    ensures { OnOk result (sites.new ≡ with_sites sites.old (walked (map implied_sites (implied_forms head.now (map membered members.now))) at.now (counted sites.old))) }
{
    let has_static = is_static_initialiser_implied(head, members);
    push_form_if(sites, at, MethodForm::StaticInitialiser, has_static)?;
    let has_constructor = is_constructor_implied(head, members);
    push_form_if(sites, at, MethodForm::ImpliedConstructor, has_constructor)?;
    Ok(())
}

/// A type, and then what its body declares.
#[cycle(walk)]
pub fn push_declaration<'a>(
    alloc: Global,
    sites: &mut Sites<'a>,
    at: &Standing,
    declaration: &'a Declaration,
) -> Result<(), WantOfMemory>
    ensures { OnOk result (sites.new ≡ with_sites sites.old (sites_of_declaration declaration.now at.now (counted sites.old))) }
{
    let class = sites.classes.len() as u64;
    let scope = sites.scopes.len() as u64;
    push_class(alloc, sites, at, &declaration.head)?;
    let inner = within(alloc, &declaration.head, at, class, scope)?;
    push_unwritten(
        sites,
        &inner,
        &declaration.head,
        declaration.members.slice(),
    )?;
    push_members(alloc, sites, &inner, declaration.members.slice())?;
    Ok(())
}

#[cycle(walk)]
fn push_members<'a>(
    alloc: Global,
    sites: &mut Sites<'a>,
    at: &Standing,
    members: &'a [Member],
) -> Result<(), WantOfMemory>
    ensures { OnOk result (sites.new ≡ with_sites sites.old (walked (map (λ (m : Membered). m.walk) (map membered members.now)) at.now (counted sites.old))) }
{
    for member in members {
        push_member(alloc, sites, at, member)?;
    }
    Ok(())
}

#[cycle(walk)]
#[tactic(auto, using(crate::proofs::MembersByParts::statements))]
fn push_member<'a>(
    alloc: Global,
    sites: &mut Sites<'a>,
    at: &Standing,
    member: &'a Member,
) -> Result<(), WantOfMemory>
    ensures { OnOk result (sites.new ≡ with_sites sites.old ((membered member.now).walk at.now (counted sites.old))) }
{
    match member {
        Member::Semicolon { .. } => Ok(()),
        Member::Initialiser {
            is_static,
            items,
            ..
        } => push_initialiser(sites, at, *is_static, items.slice()),
        Member::Fields(vars) => push_declared(sites, at, vars),
        Member::Bare { head } => push_headed(sites, at, head, false),
        Member::Method { head, items } => push_method(sites, at, head, items.slice()),
        Member::Nested(declaration) => push_declaration(alloc, sites, at, declaration),
    }
}
