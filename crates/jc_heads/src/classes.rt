//! The heads of types.
ghost use Rattle.std.specs.Prelude.{◌≡◌, IfOk, map, ◌∷◌};
ghost use Rattle.jc_tree.specs.Offsets.{first_offset_of_head, first_offset_of_modifier, modifiers_first};
ghost use Rattle.jc_declares.specs.Sites.{is_interface_head, params_of_head};
ghost use Rattle.jc_declares.specs.Heads.{is_top, name_in_head, modifiers_in_head, kind_of_head, superclass_trees, interface_trees, path_of_class, class_head};

use crate::marks::{access_of_type, says};
use crate::paths::{path_of_class, paths};
use jc_declares::{ClassHead, Path, Standing};
use jc_rules::{Items, WantOfMemory};
use jc_tree::{ClassTree, DeclarationHead, Ident, Modifier, ModifierWord, TypeParam, copy_text};
use jc_types::Kind;
use std::alloc::Global;

/// Whether a type is an interface, as annotation types are.
pub fn is_interface_head(head: &DeclarationHead) -> bool
    ensures { result ≡ is_interface_head head.now }
{
    match head {
        DeclarationHead::Class { .. } => false,
        DeclarationHead::Interface { .. } => true,
        DeclarationHead::Annotation { .. } => true,
    }
}

/// Whether what is declared is a member of no class.
pub fn is_top(round: &[u64]) -> bool
    ensures { result ≡ is_top round.now }
{
    match round.first() {
        Some(_) => false,
        None => true,
    }
}

/// Whether a type is a class or an interface.
pub fn kind_of_head(head: &DeclarationHead) -> Kind
    ensures { result ≡ kind_of_head head.now }
{
    if is_interface_head(head) {
        Kind::Interface
    } else {
        Kind::Class
    }
}

/// The name of a type.
pub fn name_in_head(head: &DeclarationHead) -> &Ident
    ensures { result.now.text ≡ name_in_head head.now }
{
    match head {
        DeclarationHead::Class { name, .. } => name,
        DeclarationHead::Interface { name, .. } => name,
        DeclarationHead::Annotation { name, .. } => name,
    }
}

/// The modifiers of a type.
pub fn modifiers_in_head(head: &DeclarationHead) -> &[Modifier]
    ensures { result.now ≡ modifiers_in_head head.now }
{
    match head {
        DeclarationHead::Class { modifiers, .. } => modifiers.slice(),
        DeclarationHead::Interface { modifiers, .. } => modifiers.slice(),
        DeclarationHead::Annotation { modifiers, .. } => modifiers.slice(),
    }
}

/// The type parameters of a type.
pub fn params_of_head(head: &DeclarationHead) -> &[TypeParam]
    ensures { result.now ≡ params_of_head head.now }
{
    match head {
        DeclarationHead::Class { params, .. } => params.slice(),
        DeclarationHead::Interface { params, .. } => params.slice(),
        DeclarationHead::Annotation { .. } => &[],
    }
}

/// The superinterfaces that a type writes.
pub fn interface_trees(head: &DeclarationHead) -> &[ClassTree]
    ensures { result.now ≡ interface_trees head.now }
{
    match head {
        DeclarationHead::Class { implements, .. } => implements.slice(),
        DeclarationHead::Interface { extends, .. } => extends.slice(),
        DeclarationHead::Annotation { .. } => &[],
    }
}

fn superclass(alloc: Global, head: &DeclarationHead) -> Result<Items<Path>, WantOfMemory>
    ensures { IfOk result (λ list. list ≡ map path_of_class (superclass_trees head.now)) }
{
    let mut list = Items::new(alloc);
    if let DeclarationHead::Class {
        extends: Some(tree),
        ..
    } = head
    {
        list.push(path_of_class(alloc, tree)?)?;
    }
    Ok(list)
}

fn copy_round(alloc: Global, round: &[u64]) -> Result<Items<u64>, WantOfMemory>
    ensures { IfOk result (λ copy. copy ≡ round.now) }
{
    let mut copy = Items::new(alloc);
    for class in round {
        copy.push(*class)?;
    }
    Ok(copy)
}

/// A class and those round it.
fn rounded(alloc: Global, class: u64, round: &[u64]) -> Result<Items<u64>, WantOfMemory>
    ensures { IfOk result (λ list. list ≡ class ∷ round.now) }
{
    let mut list = Items::new(alloc);
    list.push(class)?;
    list.append(copy_round(alloc, round)?)?;
    Ok(list)
}

/// Where the members of a class of this number and scope stand.
pub fn within(
    alloc: Global,
    head: &DeclarationHead,
    at: &Standing,
    class: u64,
    scope: u64,
) -> Result<Standing, WantOfMemory>
    ensures { IfOk result (λ inner. inner ≡ record { file = at.now.file; unit = at.now.unit; round = class ∷ at.now.round; of_interface = is_interface_head head.now; scope = scope }) }
{
    Ok(Standing {
        file: at.file,
        unit: at.unit,
        round: rounded(alloc, class, at.round.slice())?,
        of_interface: is_interface_head(head),
        scope,
    })
}

fn modifier_at(modifier: &Modifier) -> u32
    ensures { result ≡ first_offset_of_modifier modifier.now }
{
    match modifier {
        Modifier::Annotation(annotation) => annotation.at,
        Modifier::Word { at, .. } => *at,
    }
}

/// The offset of the first modifier, or of what stands behind them.
fn modifiers_at(modifiers: &[Modifier], next: u32) -> u32
    ensures { result ≡ modifiers_first modifiers.now next }
{
    match modifiers.first() {
        Some(modifier) => modifier_at(modifier),
        None => next,
    }
}

/// The offset of the first token of a type.
pub fn head_at(head: &DeclarationHead) -> u32
    ensures { result ≡ first_offset_of_head head.now }
{
    match head {
        DeclarationHead::Class { modifiers, at, .. } => modifiers_at(modifiers.slice(), *at),
        DeclarationHead::Interface { modifiers, at, .. } => modifiers_at(modifiers.slice(), *at),
        DeclarationHead::Annotation { modifiers, at, .. } => modifiers_at(modifiers.slice(), *at),
    }
}

/// What names need of the head of a type.
pub fn class_head(
    alloc: Global,
    at: &Standing,
    scope: u64,
    head: &DeclarationHead,
) -> Result<ClassHead, WantOfMemory>
    ensures { IfOk result (λ it. it ≡ class_head (record { file = at.now.file; unit = at.now.unit; round = at.now.round; of_interface = at.now.of_interface; scope = scope; head = head.now })) }
{
    let modifiers = modifiers_in_head(head);
    Ok(ClassHead {
        file: at.file,
        at: head_at(head),
        unit: at.unit,
        round: copy_round(alloc, at.round.slice())?,
        scope,
        name: copy_text(alloc, &name_in_head(head).text)?,
        kind: kind_of_head(head),
        access: access_of_type(is_top(at.round.slice()), at.of_interface, modifiers),
        is_final: says(ModifierWord::Final, modifiers),
        superclass: superclass(alloc, head)?,
        interfaces: paths(alloc, interface_trees(head))?,
    })
}
