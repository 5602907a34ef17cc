//! What a type has to know of its members: whether one is a constructor, a static block or a static field.
ghost use Rattle.std.specs.Prelude.{◌≡◌, map, ◌||◌, ◌&&◌};
ghost use Rattle.jc_declares.specs.Sites.{membered, some_of, is_constructor_implied, is_static_initialiser_implied};

use crate::classes::is_interface_head;
use crate::marks::says;
use jc_tree::{DeclarationHead, Member, ModifierWord};

#[tactic(auto, using(crate::proofs::MembersByParts::members))]
fn constructs(member: &Member) -> bool
    ensures { result ≡ (membered member.now).constructs }
{
    match member {
        Member::Semicolon { .. } => false,
        Member::Initialiser { .. } => false,
        Member::Fields(_) => false,
        Member::Bare { head } => head.result.is_none(),
        Member::Method { head, .. } => head.result.is_none(),
        Member::Nested(_) => false,
    }
}

#[tactic(auto, using(crate::proofs::MembersByParts::members))]
fn is_static_part(member: &Member) -> bool
    ensures { result ≡ (membered member.now).is_static_part }
{
    match member {
        Member::Semicolon { .. } => false,
        Member::Initialiser { is_static, .. } => *is_static,
        Member::Fields(vars) => says(ModifierWord::Static, vars.modifiers.slice()),
        Member::Bare { .. } => false,
        Member::Method { .. } => false,
        Member::Nested(_) => false,
    }
}

#[tactic(auto, using(crate::proofs::MembersByParts::members))]
fn is_field(member: &Member) -> bool
    ensures { result ≡ (membered member.now).is_field }
{
    match member {
        Member::Semicolon { .. } => false,
        Member::Initialiser { .. } => false,
        Member::Fields(_) => true,
        Member::Bare { .. } => false,
        Member::Method { .. } => false,
        Member::Nested(_) => false,
    }
}

fn some_constructs(members: &[Member]) -> bool
    ensures { result ≡ some_of (λ m. m.constructs) (map membered members.now) }
{
    for member in members {
        if constructs(member) {
            return true;
        }
    }
    false
}

fn some_static(is_interface: bool, members: &[Member]) -> bool
    ensures { result ≡ some_of (λ m. m.is_static_part || (is_interface && m.is_field)) (map membered members.now) }
{
    for member in members {
        if is_static_part(member) || (is_interface && is_field(member)) {
            return true;
        }
    }
    false
}

/// Whether a type has a constructor that isn't written (JLS 8.8.9).
pub fn is_constructor_implied(head: &DeclarationHead, members: &[Member]) -> bool
    ensures { result ≡ is_constructor_implied head.now (map membered members.now) }
{
    !is_interface_head(head) && !some_constructs(members)
}

/// Whether a type has a static block or a static field (JLS 8.7, 9.3).
pub fn is_static_initialiser_implied(head: &DeclarationHead, members: &[Member]) -> bool
    ensures { result ≡ is_static_initialiser_implied head.now (map membered members.now) }
{
    some_static(is_interface_head(head), members)
}
