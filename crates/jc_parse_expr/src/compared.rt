//! What tells whether another comparison may stand behind one (JLS 15.20), and `instanceof`.
ghost use Rattle.std.specs.Prelude.{◌≡◌, ◌<◌, ◌^◌, length};
ghost use Rattle.jc_grammar.specs.Shapes.{takes_args};
ghost use Rattle.jc_reading.specs.Giving.{Gives};
ghost use Rattle.jc_reading.specs.Kinds.{one_of};
ghost use Rattle.jc_reading.specs.Reading.{as_new, becoming};
ghost use Rattle.jc_parse_type.specs.TypeReading.{type_run};
ghost use Rattle.jc_expr_laws.specs.CompareReading.{barred, is_touching, touched_before};
ghost use Rattle.jc_tree.specs.declared.expression.Operand.TheVariants as operand_of;
ghost use Rattle.jc_parse_expr.specs.BinaryLevels.{ends_open, measured_operand};

use crate::measured::Measured;
use crate::operator_nodes::instance_node;
use crate::pieces::is_at;
use crate::shapes::ends_bare;
use jc_lexer::{Sign, Token, TokenKind};
use jc_parse_type::type_within;
use jc_reading::{Found, Halt};
use jc_tree::{BaseTree, Operand, TypeTree};
use std::alloc::Global;

/// Whether arguments could follow a type.
fn takes_args(ty: &TypeTree) -> bool
    ensures { result ≡ takes_args ty.now }
{
    match &ty.base {
        BaseTree::Primitive { .. } => false,
        BaseTree::Class(class) => ends_bare(class) && ty.dims == 0,
    }
}

/// Whether arguments could follow the type behind `instanceof`.
pub fn ends_open(operand: &Operand) -> bool
    ensures { result ≡ ends_open operand.now }
{
    match operand {
        Operand::Binary { .. } => false,
        Operand::InstanceOf { ty } => takes_args(ty.get()),
    }
}

/// Whether a token is a `>` that touches the one behind it.
fn is_touching(token: &Token) -> bool
    ensures { result ≡ is_touching token.now }
{
    match token.kind {
        TokenKind::Sign(Sign::Greater) => token.touches,
        _ => false,
    }
}

/// Whether the token before the last `left` ones is a `>` that touches the one behind it.
#[tactic(auto, using(crate::proofs::Touches::touched_none))]
pub fn touched_before(tokens: &[Token], left: usize) -> bool
    ensures { result ≡ touched_before tokens.now left }
{
    if tokens.len() <= left {
        return false;
    }
    match tokens.get(tokens.len() - left - 1) {
        Some(last) => is_touching(last),
        None => false,
    }
}

/// Whether a comparison may not begin there: behind a type that arguments could follow no `<` is an operator, and behind a `>` that
/// touches no operator begins with a `>`.
pub fn is_barred(opened: bool, touched: bool, tokens: &[Token]) -> bool
    ensures { one_of (barred opened touched) tokens.now ≡ result }
{
    (opened && is_at(Sign::Less, tokens)) || (touched && is_at(Sign::Greater, tokens))
}

/// A type behind `instanceof`.
pub fn instance(
    alloc: Global,
    tokens: &[Token],
    height: u32,
) -> Result<Found<'_, Measured<Operand>>, Halt>
    requires { length tokens.now < 2 ^ 32 }
    ensures { Gives result (becoming measured_operand (as_new operand_of.InstanceOf (type_run height) tokens.now)) }
{
    let found = type_within(alloc, tokens, height)?;
    Ok(Found {
        value: instance_node(alloc, found.value)?,
        rest: found.rest,
        left: found.left,
    })
}
