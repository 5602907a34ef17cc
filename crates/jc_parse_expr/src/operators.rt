//! The operators of expressions, and which level each stands at (JLS 15.15 to 15.26).
ghost use Rattle.std.specs.Prelude.{◌≡◌, ◌<◌, ◌≤◌, ◌∷◌, [], length, MatchOption, MatchResult};
ghost use Rattle.std.specs.Option.{is_some};
ghost use Rattle.jc_reading.specs.Giving.{Gives};
ghost use Rattle.jc_lexer.specs.declared.token.Key.TheVariants as key_of;
ghost use Rattle.jc_reading.specs.Kinds.{key_code, one_of, sign_code};
ghost use Rattle.jc_reading.specs.Reading.{Stopped as read_stopped, as_new, found, of_kind};
ghost use Rattle.jc_tree.specs.declared.expression.Expr.{Expr};
ghost use Rattle.jc_expr_laws.specs.LevelReading.{Levels, assign_run, equal_run, less_run, plain_op_run, prefix_codes, prefix_of_kind, prefix_op_run, shift_run, plus_run, times_run, touched_assign_run, touching_run};
ghost use Rattle.jc_expr_laws.specs.EffectReading.{crement_codes, crement_op_run};
ghost use Rattle.jc_parse_expr.specs.BinaryLevels.{greater_made, greater_run, level_run, looseness, may_operate, operator_run, plain_op_codes, right_made, right_run, shift_assign_made, shift_assign_run, tighter_run, touched_assign_made, touching_equal_run, touching_greater_run};
ghost use Rattle.jc_parse_expr.specs.declared.operators.Level.TheVariants as level_of;

use crate::pieces::is_at;
use jc_lexer::{Key, Sign, Token, TokenKind};
use jc_reading::{Found, Halt, behind_key, behind_sign, place_of_sign};
use jc_tree::{AssignOp, BinaryOp, PrefixOp, PrefixSign};

/// A level of binary operators, loosest first.
#[derive(Clone, Copy, Debug, PartialEq, Eq)]
pub enum Level {
    OrElse,
    AndAlso,
    Or,
    Xor,
    And,
    Equal,
    Compared,
    Shift,
    Plus,
    Times,
}

/// The next tighter level of binary operators.
pub fn tighter_level(level: Level) -> Option<Level>
    ensures { MatchOption result (level ≡ level_of.Times) (λ next. (looseness next < looseness level) × ((levels : Levels) → tighter_run level levels ≡ level_run next levels)) }
{
    match level {
        Level::OrElse => Some(Level::AndAlso),
        Level::AndAlso => Some(Level::Or),
        Level::Or => Some(Level::Xor),
        Level::Xor => Some(Level::And),
        Level::And => Some(Level::Equal),
        Level::Equal => Some(Level::Compared),
        Level::Compared => Some(Level::Shift),
        Level::Shift => Some(Level::Plus),
        Level::Plus => Some(Level::Times),
        Level::Times => None,
    }
}

/// The next looser level of binary operators, unless this is the last one wanted.
pub fn looser_level(level: Level, last: Level) -> Option<Level>
    requires { looseness level ≤ looseness last }
    ensures { MatchOption result (level ≡ last) (λ next. (looseness level < looseness next) × (looseness next ≤ looseness last) × ((levels : Levels) → tighter_run next levels ≡ level_run level levels)) }
{
    if level == last {
        return None;
    }
    match level {
        Level::OrElse => None,
        Level::AndAlso => Some(Level::OrElse),
        Level::Or => Some(Level::AndAlso),
        Level::Xor => Some(Level::Or),
        Level::And => Some(Level::Xor),
        Level::Equal => Some(Level::And),
        Level::Compared => Some(Level::Equal),
        Level::Shift => Some(Level::Compared),
        Level::Plus => Some(Level::Shift),
        Level::Times => Some(Level::Plus),
    }
}

/// Whether `instanceof` stands at the front.
fn is_instanceof(tokens: &[Token]) -> bool
    ensures { result ≡ one_of (key_code key_of.Instanceof ∷ []) tokens.now }
{
    match behind_key(Key::Instanceof, tokens) {
        Some(_) => true,
        None => false,
    }
}

/// Whether an operator of a level, or at the level of comparisons `instanceof`, may begin with the token at the front.
pub fn may_operate(level: Level, tokens: &[Token]) -> bool
    ensures { result ≡ may_operate level tokens.now }
{
    match level {
        Level::OrElse => is_at(Sign::OrOr, tokens),
        Level::AndAlso => is_at(Sign::AndAnd, tokens),
        Level::Or => is_at(Sign::Or, tokens),
        Level::Xor => is_at(Sign::Caret, tokens),
        Level::And => is_at(Sign::And, tokens),
        Level::Equal => is_at(Sign::Equal, tokens) || is_at(Sign::NotEqual, tokens),
        Level::Compared => {
            is_at(Sign::Less, tokens)
                || is_at(Sign::LessEqual, tokens)
                || is_at(Sign::Greater, tokens)
                || is_instanceof(tokens)
        }
        Level::Shift => is_at(Sign::ShiftLeft, tokens) || is_at(Sign::Greater, tokens),
        Level::Plus => is_at(Sign::Plus, tokens) || is_at(Sign::Minus, tokens),
        Level::Times => {
            is_at(Sign::Star, tokens) || is_at(Sign::Slash, tokens) || is_at(Sign::Percent, tokens)
        }
    }
}

/// The tokens behind a `>` that touches the next token, or how many tokens are left where there is none.
fn touching(tokens: &[Token]) -> Result<&[Token], usize>
    ensures { MatchResult result (λ r. touching_run tokens.now ≡ found tt r.now) (λ left. touching_run tokens.now ≡ read_stopped left) }
{
    match tokens {
        [first, rest @ ..] => {
            if first.touches && matches!(first.kind, TokenKind::Sign(Sign::Greater)) {
                Ok(rest)
            } else {
                Err(tokens.len())
            }
        }
        _ => Err(0),
    }
}

/// An operator that is one sign.
fn by_sign(sign: Sign, op: BinaryOp, tokens: &[Token]) -> Result<Found<'_, BinaryOp>, Halt>
    ensures { Gives result (as_new (λ (u : Unit {0}). op) (of_kind (sign_code sign)) tokens.now) }
{
    match behind_sign(sign, tokens) {
        Some(rest) => Ok(Found {
            value: op,
            rest,
            left: rest.len(),
        }),
        None => Err(Halt::Stopped(tokens.len())),
    }
}

/// `==` or `!=`.
#[tactic(auto, unfolding(jc_expr_laws::specs::LevelReading::equal_run))]
fn equal_op(tokens: &[Token]) -> Result<Found<'_, BinaryOp>, Halt>
    ensures { Gives result (equal_run tokens.now) }
{
    match behind_sign(Sign::Equal, tokens) {
        Some(rest) => Ok(Found {
            value: BinaryOp::Equal,
            rest,
            left: rest.len(),
        }),
        None => by_sign(Sign::NotEqual, BinaryOp::NotEqual, tokens),
    }
}

/// `+` or `-`.
#[tactic(auto, unfolding(jc_expr_laws::specs::LevelReading::plus_run))]
fn plus_op(tokens: &[Token]) -> Result<Found<'_, BinaryOp>, Halt>
    ensures { Gives result (plus_run tokens.now) }
{
    match behind_sign(Sign::Plus, tokens) {
        Some(rest) => Ok(Found {
            value: BinaryOp::Plus,
            rest,
            left: rest.len(),
        }),
        None => by_sign(Sign::Minus, BinaryOp::Minus, tokens),
    }
}

/// `*`, `/` or `%`.
#[tactic(auto, unfolding(jc_expr_laws::specs::LevelReading::times_run))]
fn times_op(tokens: &[Token]) -> Result<Found<'_, BinaryOp>, Halt>
    ensures { Gives result (times_run tokens.now) }
{
    if let Some(rest) = behind_sign(Sign::Star, tokens) {
        return Ok(Found {
            value: BinaryOp::Times,
            rest,
            left: rest.len(),
        });
    }
    match behind_sign(Sign::Slash, tokens) {
        Some(rest) => Ok(Found {
            value: BinaryOp::Divide,
            rest,
            left: rest.len(),
        }),
        None => by_sign(Sign::Percent, BinaryOp::Remainder, tokens),
    }
}

/// `>=` of two tokens that touch, or `>`.
fn greater_op(tokens: &[Token]) -> Result<Found<'_, BinaryOp>, Halt>
    ensures { Gives result (as_new greater_made greater_run tokens.now) }
{
    match touching_equal(tokens) {
        Ok(rest) => Ok(Found {
            value: BinaryOp::GreaterEqual,
            rest,
            left: rest.len(),
        }),
        Err(reach) => match behind_sign(Sign::Greater, tokens) {
            Some(rest) => Ok(Found {
                value: BinaryOp::Greater,
                rest,
                left: reach.min(rest.len()),
            }),
            None => Err(Halt::Stopped(reach.min(tokens.len()))),
        },
    }
}

/// The tokens behind a `>` and a `=` that it touches, or how many tokens are left from the reach on.
fn touching_equal(tokens: &[Token]) -> Result<&[Token], usize>
    ensures { MatchResult result (λ r. touching_equal_run tokens.now ≡ found (tt, tt) r.now) (λ left. touching_equal_run tokens.now ≡ read_stopped left) }
{
    let inside = touching(tokens)?;
    match behind_sign(Sign::Assign, inside) {
        Some(rest) => Ok(rest),
        None => Err(inside.len()),
    }
}

/// `<`, `<=`, `>` or `>=`.
#[tactic(auto, unfolding(jc_expr_laws::specs::LevelReading::less_run))]
fn less_op(tokens: &[Token]) -> Result<Found<'_, BinaryOp>, Halt>
    ensures { Gives result (less_run tokens.now) }
{
    if let Some(rest) = behind_sign(Sign::Less, tokens) {
        return Ok(Found {
            value: BinaryOp::Less,
            rest,
            left: rest.len(),
        });
    }
    match behind_sign(Sign::LessEqual, tokens) {
        Some(rest) => Ok(Found {
            value: BinaryOp::LessEqual,
            rest,
            left: rest.len(),
        }),
        None => greater_op(tokens),
    }
}

/// The tokens behind a `>` that touches one behind it, or how many tokens are left from the reach on.
fn touching_greater(tokens: &[Token]) -> Result<&[Token], usize>
    ensures { MatchResult result (λ r. touching_greater_run tokens.now ≡ found (tt, tt) r.now) (λ left. touching_greater_run tokens.now ≡ read_stopped left) }
{
    let inside = touching(tokens)?;
    match behind_sign(Sign::Greater, inside) {
        Some(rest) => Ok(rest),
        None => Err(inside.len()),
    }
}

/// Behind a touching `>`, what makes it `>>>` or `>>`.
fn right_shift(tokens: &[Token]) -> Result<Found<'_, BinaryOp>, Halt>
    ensures { Gives result (as_new right_made right_run tokens.now) }
{
    match touching_greater(tokens) {
        Ok(rest) => Ok(Found {
            value: BinaryOp::ShiftRightZero,
            rest,
            left: rest.len(),
        }),
        Err(reach) => match behind_sign(Sign::Greater, tokens) {
            Some(rest) => Ok(Found {
                value: BinaryOp::ShiftRight,
                rest,
                left: reach.min(rest.len()),
            }),
            None => Err(Halt::Stopped(reach.min(tokens.len()))),
        },
    }
}

/// `<<`, `>>` or `>>>`.
#[tactic(auto, unfolding(jc_expr_laws::specs::LevelReading::shift_run))]
fn shift_op(tokens: &[Token]) -> Result<Found<'_, BinaryOp>, Halt>
    ensures { Gives result (shift_run tokens.now) }
{
    if let Some(rest) = behind_sign(Sign::ShiftLeft, tokens) {
        return Ok(Found {
            value: BinaryOp::ShiftLeft,
            rest,
            left: rest.len(),
        });
    }
    match touching(tokens) {
        Ok(inside) => match right_shift(inside) {
            Ok(found) => Ok(Found {
                value: found.value,
                rest: found.rest,
                left: inside.len().min(found.left),
            }),
            Err(Halt::Stopped(left)) => Err(Halt::Stopped(inside.len().min(left))),
            Err(Halt::WantOfMemory) => Err(Halt::WantOfMemory),
        },
        Err(left) => Err(Halt::Stopped(left)),
    }
}

/// An operator of a level; `instanceof` is none.
#[tactic(auto, unfolding(jc_expr_laws::specs::LevelReading::or_else_run, jc_expr_laws::specs::LevelReading::and_also_run, jc_expr_laws::specs::LevelReading::or_run, jc_expr_laws::specs::LevelReading::xor_run, jc_expr_laws::specs::LevelReading::and_run))]
pub fn operator(level: Level, tokens: &[Token]) -> Result<Found<'_, BinaryOp>, Halt>
    ensures { Gives result (operator_run level tokens.now) }
{
    match level {
        Level::OrElse => by_sign(Sign::OrOr, BinaryOp::OrElse, tokens),
        Level::AndAlso => by_sign(Sign::AndAnd, BinaryOp::AndAlso, tokens),
        Level::Or => by_sign(Sign::Or, BinaryOp::Or, tokens),
        Level::Xor => by_sign(Sign::Caret, BinaryOp::Xor, tokens),
        Level::And => by_sign(Sign::And, BinaryOp::And, tokens),
        Level::Equal => equal_op(tokens),
        Level::Compared => less_op(tokens),
        Level::Shift => shift_op(tokens),
        Level::Plus => plus_op(tokens),
        Level::Times => times_op(tokens),
    }
}

/// Behind `>` and a `>` that touch, what makes them `>>=` or `>>>=`.
fn shift_assign(tokens: &[Token]) -> Result<Found<'_, AssignOp>, Halt>
    ensures { Gives result (as_new shift_assign_made shift_assign_run tokens.now) }
{
    match behind_sign(Sign::Assign, tokens) {
        Some(rest) => Ok(Found {
            value: AssignOp::ShiftRight,
            rest,
            left: rest.len(),
        }),
        None => match touching_equal(tokens) {
            Ok(rest) => Ok(Found {
                value: AssignOp::ShiftRightZero,
                rest,
                left: rest.len(),
            }),
            Err(left) => Err(Halt::Stopped(left)),
        },
    }
}

/// `>>=` or `>>>=`.
fn touched_assign(tokens: &[Token]) -> Result<Found<'_, AssignOp>, Halt>
    ensures { Gives result (as_new touched_assign_made touched_assign_run tokens.now) }
{
    let inside = match touching(tokens) {
        Ok(inside) => inside,
        Err(left) => return Err(Halt::Stopped(left)),
    };
    let last = match touching(inside) {
        Ok(last) => last,
        Err(left) => return Err(Halt::Stopped(left)),
    };
    shift_assign(last)
}

/// An assignment operator.
#[tactic(auto, unfolding(jc_expr_laws::specs::LevelReading::assign_run))]
pub fn assign_op(tokens: &[Token]) -> Result<Found<'_, AssignOp>, Halt>
    ensures { Gives result (assign_run tokens.now) }
{
    if let Some(rest) = behind_sign(Sign::Assign, tokens) {
        return Ok(assigning(AssignOp::Plain, rest));
    }
    if let Some(rest) = behind_sign(Sign::PlusAssign, tokens) {
        return Ok(assigning(AssignOp::Plus, rest));
    }
    if let Some(rest) = behind_sign(Sign::MinusAssign, tokens) {
        return Ok(assigning(AssignOp::Minus, rest));
    }
    if let Some(rest) = behind_sign(Sign::StarAssign, tokens) {
        return Ok(assigning(AssignOp::Times, rest));
    }
    if let Some(rest) = behind_sign(Sign::SlashAssign, tokens) {
        return Ok(assigning(AssignOp::Divide, rest));
    }
    if let Some(rest) = behind_sign(Sign::PercentAssign, tokens) {
        return Ok(assigning(AssignOp::Remainder, rest));
    }
    if let Some(rest) = behind_sign(Sign::AndAssign, tokens) {
        return Ok(assigning(AssignOp::And, rest));
    }
    if let Some(rest) = behind_sign(Sign::OrAssign, tokens) {
        return Ok(assigning(AssignOp::Or, rest));
    }
    if let Some(rest) = behind_sign(Sign::CaretAssign, tokens) {
        return Ok(assigning(AssignOp::Xor, rest));
    }
    if let Some(rest) = behind_sign(Sign::ShiftLeftAssign, tokens) {
        return Ok(assigning(AssignOp::ShiftLeft, rest));
    }
    touched_assign(tokens)
}

/// An operator before these tokens.
fn assigning(op: AssignOp, rest: &[Token]) -> Found<'_, AssignOp>
    ensures { (result.value ≡ op) × (result.rest.now ≡ rest.now) × (result.left ≡ length rest.now) }
{
    Found {
        value: op,
        rest,
        left: rest.len(),
    }
}

/// The prefix operator of a sign.
fn prefix_of(kind: &TokenKind) -> Option<PrefixSign>
    ensures { result ≡ prefix_of_kind kind.now }
{
    match kind {
        TokenKind::Sign(Sign::Plus) => Some(PrefixSign::Plus),
        TokenKind::Sign(Sign::Minus) => Some(PrefixSign::Minus),
        TokenKind::Sign(Sign::Increment) => Some(PrefixSign::Increment),
        TokenKind::Sign(Sign::Decrement) => Some(PrefixSign::Decrement),
        TokenKind::Sign(Sign::Not) => Some(PrefixSign::Not),
        TokenKind::Sign(Sign::Tilde) => Some(PrefixSign::Complement),
        _ => None,
    }
}

/// A prefix operator and the tokens behind it, where one stands at the front.
pub fn prefix_op(tokens: &[Token]) -> Option<(PrefixOp, &[Token])>
    ensures read { MatchOption result (prefix_op_run tokens.now ≡ read_stopped (length tokens.now)) (λ x. prefix_op_run tokens.now ≡ found x.0 x.1.now) }
    ensures front { one_of prefix_codes tokens.now ≡ is_some result }
{
    match tokens {
        [first, rest @ ..] => match prefix_of(&first.kind) {
            Some(sign) => Some((
                PrefixOp {
                    at: first.from,
                    sign,
                },
                rest,
            )),
            None => None,
        },
        _ => None,
    }
}

/// `!` or `~`, and the tokens behind it, where one stands at the front.
#[tactic(auto, unfolding(jc_expr_laws::specs::LevelReading::plain_op_run))]
pub fn plain_op(tokens: &[Token]) -> Option<(PrefixOp, &[Token])>
    ensures read { MatchOption result (plain_op_run tokens.now ≡ read_stopped (length tokens.now)) (λ x. plain_op_run tokens.now ≡ found x.0 x.1.now) }
    ensures front { one_of plain_op_codes tokens.now ≡ is_some result }
{
    if let Some((at, rest)) = place_of_sign(Sign::Not, tokens) {
        let op = PrefixOp {
            at,
            sign: PrefixSign::Not,
        };
        return Some((op, rest));
    }
    match place_of_sign(Sign::Tilde, tokens) {
        Some((at, rest)) => {
            let op = PrefixOp {
                at,
                sign: PrefixSign::Complement,
            };
            Some((op, rest))
        }
        None => None,
    }
}

/// `++` or `--`, and the tokens behind it, where one stands at the front.
#[tactic(auto, unfolding(jc_expr_laws::specs::EffectReading::crement_op_run))]
pub fn crement_op(tokens: &[Token]) -> Option<(PrefixOp, &[Token])>
    ensures read { MatchOption result (crement_op_run tokens.now ≡ read_stopped (length tokens.now)) (λ x. crement_op_run tokens.now ≡ found x.0 x.1.now) }
    ensures front { one_of crement_codes tokens.now ≡ is_some result }
{
    if let Some((at, rest)) = place_of_sign(Sign::Increment, tokens) {
        let op = PrefixOp {
            at,
            sign: PrefixSign::Increment,
        };
        return Some((op, rest));
    }
    match place_of_sign(Sign::Decrement, tokens) {
        Some((at, rest)) => {
            let op = PrefixOp {
                at,
                sign: PrefixSign::Decrement,
            };
            Some((op, rest))
        }
        None => None,
    }
}
