//! Heights of types.
ghost use Rattle.std.specs.Prelude.{◌≡◌, map};
ghost use Rattle.jc_tree.specs.Heights.{arg_height, base_height, capped, class_height, in_some, most, part_height, type_height};

use crate::{BaseTree, ClassTree, TypeArg, TypePart, TypeTree};

#[cycle(types_heights)]
#[tactic(auto, using(crate::proofs::Opened::types))]
pub fn type_height(node: &TypeTree) -> u32
    ensures { result ≡ capped (type_height node.now) }
{
    base_height(&node.base).saturating_add(1)
}

#[cycle(types_heights)]
#[tactic(auto, using(crate::proofs::Opened::types))]
pub fn base_height(node: &BaseTree) -> u32
    ensures { result ≡ capped (base_height node.now) }
{
    match node {
        BaseTree::Primitive { .. } => 0,
        BaseTree::Class(it) => class_height(it),
    }
}

#[cycle(types_heights)]
#[tactic(auto, using(crate::proofs::Opened::types))]
pub fn class_height(node: &ClassTree) -> u32
    ensures { result ≡ capped (class_height node.now) }
{
    part_height(&node.first).max(parts_height(node.more.slice()))
}

pub fn classes_height(nodes: &[ClassTree]) -> u32
    ensures { result ≡ capped (most (map class_height nodes.now)) }
{
    let mut most = 0;
    for node in nodes {
        most = most.max(class_height(node));
    }
    most
}

pub fn some_class_height(node: &Option<ClassTree>) -> u32
    ensures { result ≡ capped (in_some class_height node.now) }
{
    match node {
        Some(node) => class_height(node),
        None => 0,
    }
}

#[cycle(types_heights)]
#[tactic(auto, using(crate::proofs::Opened::types))]
pub fn part_height(node: &TypePart) -> u32
    ensures { result ≡ capped (part_height node.now) }
{
    args_height(node.args.slice())
}

#[cycle(types_heights)]
#[tactic(auto, using(crate::proofs::Opened::types))]
pub fn parts_height(nodes: &[TypePart]) -> u32
    ensures { result ≡ capped (most (map part_height nodes.now)) }
{
    let mut most = 0;
    for node in nodes {
        most = most.max(part_height(node));
    }
    most
}

#[cycle(types_heights)]
#[tactic(auto, using(crate::proofs::Opened::types))]
pub fn arg_height(node: &TypeArg) -> u32
    ensures { result ≡ capped (arg_height node.now) }
{
    match node {
        TypeArg::Exact(it) => type_height(it),
        TypeArg::Any { .. } => 0,
        TypeArg::Extends { bound, .. } => type_height(bound),
        TypeArg::Super { bound, .. } => type_height(bound),
    }
}

#[cycle(types_heights)]
#[tactic(auto, using(crate::proofs::Opened::types))]
pub fn args_height(nodes: &[TypeArg]) -> u32
    ensures { result ≡ capped (most (map arg_height nodes.now)) }
{
    let mut most = 0;
    for node in nodes {
        most = most.max(arg_height(node));
    }
    most
}
