//! Lists of types in an arena: type arguments, and types that are thrown.
ghost use Rattle.std.specs.Prelude.{◌≡◌, ◌<◌, IfOk, length};
ghost use Rattle.jc_typed.specs.Parts.{Grows, types_of};

use jc_rules::WantOfMemory;
use jc_typed::{ListNode, Nodes};
use jc_types::{Ty, copy_type};
use std::alloc::Global;

/// A list of types in the arena.
#[tactic(auto, using(jc_typed::proofs::Growing::growing, jc_exprs_nodes::proofs::Appending::appended))]
pub fn push_type_list(alloc: Global, nodes: &mut Nodes, types: &[Ty]) -> Result<u32, WantOfMemory>
    ensures value { IfOk result (λ at. types_of nodes.new at ≡ types.now) }
    ensures within { IfOk result (λ at. at < length nodes.new) }
    ensures grows { Grows nodes.old nodes.new }
{
    let mut list = nodes.push_types(ListNode::Empty)?;
    let mut rest = types;
    while let [ty, more @ ..] = rest {
        let last = nodes.push_type(copy_type(alloc, ty)?)?;
        list = nodes.push_types(ListNode::More { before: list, last })?;
        rest = more;
    }
    Ok(list)
}
