//! The grammar of Java 7 (JLS 18), as definitions over trees and tokens: what tokens a tree tells, which trees the grammar has, and what
//! begins one.
#![tactic(auto)]

ghost use Rattle.std.specs.Prelude.{◌≡◌};
ghost use Rattle.jc_grammar.specs.Shapes.{binary_level};
ghost use Rattle.jc_grammar.specs.Types.{primitive_key};
ghost use Rattle.jc_grammar.specs.Worked.{WorkedTrees};
ghost use Rattle.jc_grammar.specs.Before.{TokensComeFirst};
ghost use Rattle.jc_grammar.specs.Firsts.{FirstsAreTold};
ghost use Rattle.jc_grammar.specs.Laws.{TypesAreTold, ExpressionsAreTold, StatementsAreTold};

use jc_lexer::Key;
use jc_tree::{BinaryOp, PrimitiveWord};

/// The keyword of a primitive type.
pub fn primitive_key(word: PrimitiveWord) -> Key
    ensures { result ≡ primitive_key word }
{
    match word {
        PrimitiveWord::Boolean => Key::Boolean,
        PrimitiveWord::Byte => Key::Byte,
        PrimitiveWord::Short => Key::Short,
        PrimitiveWord::Char => Key::Char,
        PrimitiveWord::Int => Key::Int,
        PrimitiveWord::Long => Key::Long,
    }
}

/// The level of a binary operator, from 2 for `||` to 11 for `*`.
pub fn binary_level(op: BinaryOp) -> u32
    ensures { result ≡ binary_level op }
{
    match op {
        BinaryOp::OrElse => 2,
        BinaryOp::AndAlso => 3,
        BinaryOp::Or => 4,
        BinaryOp::Xor => 5,
        BinaryOp::And => 6,
        BinaryOp::Equal | BinaryOp::NotEqual => 7,
        BinaryOp::Less | BinaryOp::Greater => 8,
        BinaryOp::LessEqual | BinaryOp::GreaterEqual => 8,
        BinaryOp::ShiftLeft | BinaryOp::ShiftRight | BinaryOp::ShiftRightZero => 9,
        BinaryOp::Plus | BinaryOp::Minus => 10,
        BinaryOp::Times | BinaryOp::Divide | BinaryOp::Remainder => 11,
    }
}

/// A law: the tokens of a type are those of its parts, in order.
pub fn types_are_told()
    ensures { TypesAreTold }
{}

/// A law: the tokens of an expression are those of its parts, with the signs and keywords between them.
pub fn expressions_are_told()
    ensures { ExpressionsAreTold }
{}

/// A law: the tokens of a statement, of a part of one, of a member and of a declaration are those of its parts, with the signs and
/// keywords between them.
pub fn statements_are_told()
    ensures { StatementsAreTold }
{}

/// A law: the trees of small sources have the tokens, the heights and the places that they are to have.
pub fn trees_are_worked()
    ensures { WorkedTrees }
{}

/// A law: the first token of a tree stands at the offset that `jc_tree` answers for it.
pub fn firsts_are_told()
    ensures { FirstsAreTold }
{}

/// A law: the tokens of a tree come before those that follow, whatever these are.
pub fn tokens_come_first()
    ensures { TokensComeFirst }
{}
