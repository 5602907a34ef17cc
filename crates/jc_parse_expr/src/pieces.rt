//! Pieces of primaries and creations that hold no expressions.
ghost use Rattle.std.specs.Prelude.{◌≡◌, ◌+◌, ◌<◌, ◌^◌, ◌∷◌, [], false, length, IfOk, MatchOption, MatchResult};
ghost use Rattle.std.specs.Option.{is_some};
ghost use Rattle.jc_tree.specs.Heights.{expr_height};
ghost use Rattle.jc_reading.specs.Giving.{Is};
ghost use Rattle.jc_reading.specs.Kinds.{one_of, sign_code, word_code};
ghost use Rattle.jc_reading.specs.Reading.{Stopped as read_stopped, as_new, found, picking};
ghost use Rattle.jc_lexer.specs.declared.token.Sign.TheVariants as sign_of;
ghost use Rattle.jc_part_laws.specs.PartReading.{closing_run};
ghost use Rattle.jc_expr_laws.specs.PrimeReading.{diamond_run, literal_codes, literal_of_kind, picks_literal};
ghost use Rattle.jc_expr_laws.specs.StartReading.{dot_class_run};
ghost use Rattle.jc_expr_laws.specs.PostReading.{op_of_kind, ops_run};
ghost use Rattle.jc_parse_expr.specs.BinaryLevels.{is_lone_name, takes_more};
ghost use Rattle.jc_parse_expr.specs.PrimeCode.{IsMeasured, literal_made};

use crate::measured::Measured;
use jc_lexer::{Key, Sign, Token, TokenKind};
use jc_reading::{Found, behind_key, behind_sign};
use jc_rules::{Items, WantOfMemory};
use jc_tree::{Expr, Literal, PostfixOp};
use std::alloc::Global;

/// Whether a word stands at the front.
pub fn is_word(tokens: &[Token]) -> bool
    ensures { result ≡ one_of (word_code ∷ []) tokens.now }
{
    match tokens {
        [first, ..] => match &first.kind {
            TokenKind::Word(_) => true,
            _ => false,
        },
        _ => false,
    }
}

/// Whether a sign stands at the front.
pub fn is_at(sign: Sign, tokens: &[Token]) -> bool
    ensures { result ≡ one_of (sign_code sign ∷ []) tokens.now }
{
    match behind_sign(sign, tokens) {
        Some(_) => true,
        None => false,
    }
}

/// Whether what stands at the front makes more of a name before it: arguments, a member, an index or a postfix operator.
fn takes_more(tokens: &[Token]) -> bool
    ensures { result ≡ takes_more tokens.now }
{
    is_at(Sign::LeftParen, tokens)
        || is_at(Sign::Dot, tokens)
        || is_at(Sign::LeftBracket, tokens)
        || is_at(Sign::Increment, tokens)
        || is_at(Sign::Decrement, tokens)
}

/// Whether a name stands at the front that is a whole operand.
pub fn is_lone_name(tokens: &[Token]) -> bool
    ensures { result ≡ is_lone_name tokens.now }
{
    match tokens {
        [first, rest @ ..] => match &first.kind {
            TokenKind::Word(_) => !takes_more(rest),
            _ => false,
        },
        _ => false,
    }
}

/// Whether an array initialiser ends at the front, without another part.
#[tactic(auto, using(crate::proofs::ListSteps::two_of))]
pub fn ends_row(tokens: &[Token]) -> bool
    ensures { result ≡ one_of (sign_code sign_of.Comma ∷ sign_code sign_of.RightBrace ∷ []) tokens.now }
{
    is_at(Sign::Comma, tokens) || is_at(Sign::RightBrace, tokens)
}

/// A copy of the units of a string.
pub fn copy_units(alloc: Global, units: &[u16]) -> Result<Items<u16>, WantOfMemory>
    ensures { IfOk result (λ copy. copy ≡ units.now) }
{
    Ok(Items::of(units.to_vec(alloc)?))
}

/// The literal that a token is.
fn literal_of(alloc: Global, kind: &TokenKind) -> Result<Option<Literal>, WantOfMemory>
    ensures { IfOk result (λ literal. literal ≡ literal_of_kind kind.now) }
{
    match kind {
        TokenKind::Number {
            value,
            long,
            decimal,
        } => Ok(Some(Literal::Number {
            value: *value,
            long: *long,
            decimal: *decimal,
        })),
        TokenKind::CharLit(unit) => Ok(Some(Literal::Char(*unit))),
        TokenKind::StringLit(units) => {
            let units = copy_units(alloc, units.get().slice())?;
            Ok(Some(Literal::String(units)))
        }
        TokenKind::Key(Key::True) => Ok(Some(Literal::Boolean(true))),
        TokenKind::Key(Key::False) => Ok(Some(Literal::Boolean(false))),
        TokenKind::Key(Key::Null) => Ok(Some(Literal::Null)),
        _ => Ok(None),
    }
}

/// The literal at the front, its offset and the tokens behind it.
fn picked_literal(
    alloc: Global,
    tokens: &[Token],
) -> Result<Option<(u32, Literal, &[Token])>, WantOfMemory>
    ensures read { IfOk result (λ o. MatchOption o (picking picks_literal tokens.now ≡ read_stopped (length tokens.now)) (λ x. picking picks_literal tokens.now ≡ found (x.0, x.1) x.2.now)) }
    ensures front { IfOk result (λ o. one_of literal_codes tokens.now ≡ is_some o) }
{
    match tokens {
        [first, rest @ ..] => match literal_of(alloc, &first.kind)? {
            Some(value) => Ok(Some((first.from, value, rest))),
            None => Ok(None),
        },
        _ => Ok(None),
    }
}

/// The literal at the front, as an expression.
#[tactic(auto, using(crate::proofs::HeightSteps::primes))]
pub fn literal(
    alloc: Global,
    tokens: &[Token],
) -> Result<Option<(Measured<Expr>, &[Token])>, WantOfMemory>
    ensures read { IfOk result (λ o. MatchOption o (one_of literal_codes tokens.now ≡ false) (λ x. (as_new literal_made (picking picks_literal) tokens.now ≡ found x.0.tree x.1.now) × IsMeasured expr_height x.0)) }
    ensures front { IfOk result (λ o. one_of literal_codes tokens.now ≡ is_some o) }
{
    match picked_literal(alloc, tokens)? {
        Some((at, value, rest)) => Ok(Some((
            Measured {
                tree: Expr::Literal { at, value },
                height: 1,
            },
            rest,
        ))),
        None => Ok(None),
    }
}

/// The postfix operator that a token is.
fn postfix_of(kind: &TokenKind) -> Option<PostfixOp>
    ensures { result ≡ op_of_kind kind.now }
{
    match kind {
        TokenKind::Sign(Sign::Increment) => Some(PostfixOp::Increment),
        TokenKind::Sign(Sign::Decrement) => Some(PostfixOp::Decrement),
        _ => None,
    }
}

/// The postfix operator behind a value, where there is room for one, and the tokens behind it.
pub fn postfix<'a>(
    value: &Measured<Expr>,
    tokens: &'a [Token],
    height: u32,
) -> Option<(PostfixOp, &'a [Token])>
    requires { IsMeasured expr_height value.now × (height + 1 < 2 ^ 32) }
    ensures { MatchOption result (ops_run height value.now.tree tokens.now ≡ read_stopped (length tokens.now)) (λ x. ops_run height value.now.tree tokens.now ≡ found x.0 x.1.now) }
{
    if height < value.height {
        return None;
    }
    match tokens {
        [first, rest @ ..] => match postfix_of(&first.kind) {
            Some(op) => Some((op, rest)),
            None => None,
        },
        _ => None,
    }
}

/// The tokens behind `.class`, or how many are left from the reach on.
pub fn dot_class(tokens: &[Token]) -> Result<&[Token], usize>
    ensures { MatchResult result (λ r. dot_class_run tokens.now ≡ found (tt, tt) r.now) (λ left. dot_class_run tokens.now ≡ read_stopped left) }
{
    let Some(inside) = behind_sign(Sign::Dot, tokens) else {
        return Err(tokens.len());
    };
    match behind_key(Key::Class, inside) {
        Some(rest) => Ok(rest),
        None => Err(inside.len()),
    }
}

/// The end of an array initialiser, where a comma may stand once more, and whether it does.
pub fn closing(tokens: &[Token]) -> Result<(bool, &[Token]), usize>
    ensures { MatchResult result (λ x. closing_run sign_of.Comma sign_of.RightBrace tokens.now ≡ found x.0 x.1.now) (λ left. closing_run sign_of.Comma sign_of.RightBrace tokens.now ≡ read_stopped left) }
{
    let (trailing, inside) = match behind_sign(Sign::Comma, tokens) {
        Some(inside) => (true, inside),
        None => (false, tokens),
    };
    match behind_sign(Sign::RightBrace, inside) {
        Some(rest) => Ok((trailing, rest)),
        None => Err(inside.len()),
    }
}

/// Whether `<>` stands there.
pub fn diamond(tokens: &[Token]) -> Found<'_, bool>
    ensures { Is result (diamond_run tokens.now) }
{
    let Some(inside) = behind_sign(Sign::Less, tokens) else {
        return Found {
            value: false,
            rest: tokens,
            left: tokens.len(),
        };
    };
    match behind_sign(Sign::Greater, inside) {
        Some(rest) => Found {
            value: true,
            rest,
            left: rest.len(),
        },
        None => Found {
            value: false,
            rest: tokens,
            left: inside.len(),
        },
    }
}
