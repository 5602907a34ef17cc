//! What the steps of an operand do: whether one of them is unchecked, and which type is behind them.
ghost use Rattle.std.specs.Prelude.{◌≡◌, ◌<◌, IfOk, length};
ghost use Rattle.jc_typed.specs.Parts.{expr_of, operand_of, operands_of, steps_of};
ghost use Rattle.jc_unchecked_spec.specs.Bodies.{has_unchecked, is_generic_last, makes_generic, type_behind, type_of_expr, type_of_operand};

use crate::members::is_variable_phase;
use crate::walk::Walk;
use jc_rules::WantOfMemory;
use jc_typed::{ExprNode, ListNode, OperandNode, StepNode, StepsNode};
use jc_types::{Phase, Ty, copy_type, reifiable};

/// Whether a step goes up by an unchecked conversion (JLS 5.1.9).
#[tactic(auto, using(crate::proofs::Steps::steps_more))]
pub fn has_unchecked(walk: &Walk, at: u32) -> bool
    requires { at < length walk.now.nodes.now }
    ensures { result ≡ has_unchecked (steps_of walk.now.nodes.now at) }
{
    let mut list = at;
    'steps_left: loop {
        match walk.nodes.steps(list) {
            StepsNode::Empty => return false,
            StepsNode::More { before, last } => match last {
                StepNode::Up { unchecked, .. } => {
                    if unchecked {
                        return true;
                    }
                    list = before;
                }
                StepNode::Widen(_) => list = before,
                StepNode::Narrow(_) => list = before,
                StepNode::BoxUp(_) => list = before,
                StepNode::Unbox(_) => list = before,
                StepNode::Test { .. } => list = before,
            },
        }
    }
}

// The type behind steps of a value of a type.
#[tactic(auto, using(crate::proofs::Steps::steps_more))]
fn type_behind(walk: &Walk, own: Ty, at: u32) -> Result<Ty, WantOfMemory>
    requires { at < length walk.now.nodes.now }
    ensures { IfOk result (λ r. r ≡ type_behind own (steps_of walk.now.nodes.now at)) }
{
    let mut list = at;
    'steps_left: loop {
        match walk.nodes.steps(list) {
            StepsNode::Empty => return Ok(own),
            StepsNode::More { before, last } => match last {
                StepNode::Up { ty, .. } => return copy_type(walk.alloc, walk.nodes.ty(ty)),
                StepNode::Widen(_) => list = before,
                StepNode::Narrow(_) => list = before,
                StepNode::BoxUp(_) => list = before,
                StepNode::Unbox(_) => list = before,
                StepNode::Test { .. } => list = before,
            },
        }
    }
}

fn type_of_expr(walk: &Walk, at: u32) -> Result<Ty, WantOfMemory>
    requires { at < length walk.now.nodes.now }
    ensures { IfOk result (λ r. r ≡ type_of_expr (expr_of walk.now.nodes.now at)) }
{
    match walk.nodes.expr(at) {
        ExprNode::Missing => Ok(Ty::NullTy),
        ExprNode::Expr { ty, .. } => copy_type(walk.alloc, walk.nodes.ty(ty)),
    }
}

/// The type of an operand of reference type, behind its steps.
pub fn type_of_operand(walk: &Walk, at: u32) -> Result<Ty, WantOfMemory>
    requires { at < length walk.now.nodes.now }
    ensures { IfOk result (λ r. r ≡ type_of_operand (operand_of walk.now.nodes.now at)) }
{
    match walk.nodes.operand(at) {
        OperandNode::Missing => Ok(Ty::NullTy),
        OperandNode::Operand { of, steps, .. } => {
            let own = type_of_expr(walk, of)?;
            type_behind(walk, own, steps)
        }
    }
}

fn is_generic_last(walk: &Walk, args: u32) -> Result<bool, WantOfMemory>
    requires { args < length walk.now.nodes.now }
    ensures { IfOk result (λ r. r ≡ is_generic_last walk.now.table.now (operands_of walk.now.nodes.now args)) }
{
    match walk.nodes.operands(args) {
        ListNode::Empty => Ok(false),
        ListNode::More { last, .. } => {
            let ty = type_of_operand(walk, last)?;
            Ok(!reifiable(walk.table, &ty))
        }
    }
}

/// Whether arguments of a variable number go into an array of a type that isn't wholly there at run time (JLS 4.7, 15.12.4.2).
pub fn makes_generic(walk: &Walk, phase: Phase, args: u32) -> Result<bool, WantOfMemory>
    requires { args < length walk.now.nodes.now }
    ensures { IfOk result (λ r. r ≡ makes_generic walk.now.table.now phase (operands_of walk.now.nodes.now args)) }
{
    if !is_variable_phase(phase) {
        return Ok(false);
    }
    is_generic_last(walk, args)
}
