//! Nodes that are built of trees with their heights.
ghost use Rattle.std.specs.Prelude.{◌≡◌, IfOk};
ghost use Rattle.jc_parse_expr.specs.BinaryLevels.{measured_operand};
ghost use Rattle.jc_tree.specs.declared.expression.Operand.TheVariants as operand_of;
ghost use Rattle.jc_parse_expr.specs.Nodes.{assign_node, binary_node, cast_node, chain_node, conditional_node, prefix_node};

use crate::measured::Measured;
use jc_reading::{boxed_beside, three_boxed, two_boxed, without};
use jc_rules::{Boxed, Items, WantOfMemory};
use jc_tree::{AssignOp, BinaryOp, Expr, Operand, PrefixOp, TypeTree, type_height};
use std::alloc::Global;

/// An assignment (JLS 15.26).
pub fn assign_node(
    alloc: Global,
    target: Measured<Expr>,
    op: AssignOp,
    value: Measured<Expr>,
) -> Result<Measured<Expr>, WantOfMemory>
    ensures { IfOk result (λ node. node ≡ assign_node target op value) }
{
    let height = target.height.max(value.height).saturating_add(1);
    let (target, value) = two_boxed(alloc, target.tree, value.tree)?;
    Ok(Measured {
        tree: Expr::Assign { target, op, value },
        height,
    })
}

/// A conditional (JLS 15.25).
pub fn conditional_node(
    alloc: Global,
    test: Measured<Expr>,
    then: Measured<Expr>,
    otherwise: Measured<Expr>,
) -> Result<Measured<Expr>, WantOfMemory>
    ensures { IfOk result (λ node. node ≡ conditional_node test then otherwise) }
{
    let height = test.height.max(then.height).max(otherwise.height);
    let (test, then, otherwise) = three_boxed(alloc, test.tree, then.tree, otherwise.tree)?;
    Ok(Measured {
        tree: Expr::Conditional {
            test,
            then,
            otherwise,
        },
        height: height.saturating_add(1),
    })
}

/// A first operand alone, or a chain of operators (JLS 15.17 to 15.24).
pub fn chain_node(
    alloc: Global,
    first: Measured<Expr>,
    rest: Measured<Items<Operand>>,
) -> Result<Measured<Expr>, WantOfMemory>
    ensures { IfOk result (λ node. node ≡ chain_node first rest) }
{
    if rest.tree.is_empty() {
        return Ok(without(rest, first));
    }
    let height = first.height.max(rest.height).saturating_add(1);
    let (first, rest) = boxed_beside(alloc, first.tree, rest.tree)?;
    Ok(Measured {
        tree: Expr::Chain { first, rest },
        height,
    })
}

/// A chain of prefix operators (JLS 15.15).
pub fn prefix_node(
    alloc: Global,
    first: PrefixOp,
    more: Items<PrefixOp>,
    operand: Measured<Expr>,
) -> Result<Measured<Expr>, WantOfMemory>
    ensures { IfOk result (λ node. node ≡ prefix_node first more operand) }
{
    let height = operand.height.saturating_add(1);
    let (operand, more) = two_boxed(alloc, operand.tree, more)?;
    Ok(Measured {
        tree: Expr::Prefix {
            first,
            more,
            operand,
        },
        height,
    })
}

/// A cast (JLS 15.16).
pub fn cast_node(
    alloc: Global,
    at: u32,
    ty: TypeTree,
    operand: Measured<Expr>,
) -> Result<Measured<Expr>, WantOfMemory>
    ensures { IfOk result (λ node. node ≡ cast_node at ty operand) }
{
    let height = type_height(&ty).max(operand.height).saturating_add(1);
    let (operand, ty) = two_boxed(alloc, operand.tree, ty)?;
    Ok(Measured {
        tree: Expr::Cast { at, ty, operand },
        height,
    })
}

/// An operator with the expression on its right.
pub fn binary_node(op: BinaryOp, right: Measured<Expr>) -> Measured<Operand>
    ensures { result ≡ binary_node op right }
{
    Measured {
        tree: Operand::Binary {
            op,
            right: right.tree,
        },
        height: right.height,
    }
}

/// `instanceof` with the type on its right (JLS 15.20.2).
#[tactic(auto, using(crate::proofs::NodeHeights::height_of_instance))]
pub fn instance_node(alloc: Global, ty: TypeTree) -> Result<Measured<Operand>, WantOfMemory>
    ensures { IfOk result (λ r. r ≡ measured_operand (operand_of.InstanceOf ty)) }
{
    let height = type_height(&ty);
    Ok(Measured {
        tree: Operand::InstanceOf {
            ty: Boxed::new(alloc, ty)?,
        },
        height,
    })
}
