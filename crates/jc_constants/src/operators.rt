//! Operators (JLS 15.15 to 15.24).
ghost use Rattle.std.specs.Prelude.{◌≡◌, ◌∷◌, IfOk};
ghost use Rattle.jc_declares.specs.Constants.{binary_operator, prefix_operator, prefix_operators};

use jc_rules::{Items, WantOfMemory};
use jc_tree::{BinaryOp, PrefixOp, PrefixSign};
use jc_types::Op;
use std::alloc::Global;

/// The operator of a chain.
pub fn binary_operator(op: BinaryOp) -> Op
    ensures { result ≡ binary_operator op }
{
    match op {
        BinaryOp::OrElse => Op::ConditionalOr,
        BinaryOp::AndAlso => Op::ConditionalAnd,
        BinaryOp::Or => Op::Or,
        BinaryOp::Xor => Op::Xor,
        BinaryOp::And => Op::And,
        BinaryOp::Equal => Op::Equal,
        BinaryOp::NotEqual => Op::NotEqual,
        BinaryOp::Less => Op::Less,
        BinaryOp::Greater => Op::Greater,
        BinaryOp::LessEqual => Op::AtMost,
        BinaryOp::GreaterEqual => Op::AtLeast,
        BinaryOp::ShiftLeft => Op::ShiftLeft,
        BinaryOp::ShiftRight => Op::ShiftRight,
        BinaryOp::ShiftRightZero => Op::ShiftRightUnsigned,
        BinaryOp::Plus => Op::Plus,
        BinaryOp::Minus => Op::Minus,
        BinaryOp::Times => Op::Times,
        BinaryOp::Divide => Op::Divide,
        BinaryOp::Remainder => Op::Remainder,
    }
}

/// The operator in front of an expression. None for `++` and `--`, which no constant expression has.
fn prefix_operator(sign: PrefixSign) -> Option<Op>
    ensures { result ≡ prefix_operator sign }
{
    match sign {
        PrefixSign::Plus => Some(Op::Positive),
        PrefixSign::Minus => Some(Op::Negative),
        PrefixSign::Not => Some(Op::Not),
        PrefixSign::Complement => Some(Op::Complement),
        PrefixSign::Increment => None,
        PrefixSign::Decrement => None,
    }
}

/// The operators in front of an expression, the outermost first, if a constant expression can have them.
#[tactic(auto, using(crate::proofs::Behind::behinds))]
pub fn prefix_operators(
    alloc: Global,
    first: PrefixOp,
    more: &[PrefixOp],
) -> Result<Option<Items<Op>>, WantOfMemory>
    ensures { IfOk result (λ it. it ≡ prefix_operators (first ∷ more.now)) }
{
    let mut ops = Items::new(alloc);
    let Some(op) = prefix_operator(first.sign) else {
        return Ok(None);
    };
    ops.push(op)?;
    for next in more {
        let Some(op) = prefix_operator(next.sign) else {
            return Ok(None);
        };
        ops.push(op)?;
    }
    Ok(Some(ops))
}
