//! Lists of operands.
ghost use Rattle.std.specs.Prelude.{◌≡◌, ◌<◌, length, map, IfOk};
ghost use Rattle.jc_typed.specs.Parts.{Grows, operand_of, operands_of};
ghost use Rattle.jc_typed.specs.Trees.{NoOperands};
ghost use Rattle.jc_exprs_nodes_spec.specs.Typeds.{one_operand, operands_of as in_order};
ghost use Rattle.jc_exprs_nodes.specs.Walks.{AllBelow};

use jc_rules::WantOfMemory;
use jc_typed::{ListNode, Nodes};

/// A list of one operand in the arena.
#[tactic(auto, using(jc_typed::proofs::Growing::growing))]
pub fn push_one_operand(nodes: &mut Nodes, at: u32) -> Result<u32, WantOfMemory>
    requires { at < length nodes.old }
    ensures value { IfOk result (λ r. operands_of nodes.new r ≡ one_operand (operand_of nodes.old at)) }
    ensures within { IfOk result (λ r. r < length nodes.new) }
    ensures grows { Grows nodes.old nodes.new }
{
    let before = nodes.push_operands(ListNode::Empty)?;
    nodes.push_operands(ListNode::More { before, last: at })
}

/// A list of operands in the arena.
#[tactic(auto, using(jc_typed::proofs::Growing::growing))]
pub fn push_operand_list(nodes: &mut Nodes, ats: &[u32]) -> Result<u32, WantOfMemory>
    requires { AllBelow (length nodes.old) ats.now }
    ensures value { IfOk result (λ r. operands_of nodes.new r ≡ in_order (map (operand_of nodes.old) ats.now) NoOperands) }
    ensures within { IfOk result (λ r. r < length nodes.new) }
    ensures grows { Grows nodes.old nodes.new }
{
    let mut list = nodes.push_operands(ListNode::Empty)?;
    let mut rest = ats;
    while let [at, more @ ..] = rest {
        list = nodes.push_operands(ListNode::More {
            before: list,
            last: *at,
        })?;
        rest = more;
    }
    Ok(list)
}
