//! Annotations and modifiers (JLS 8.1.1, 9.7).
ghost use Rattle.std.specs.Prelude.{◌≡◌, ◌<◌, ◌≤◌, ◌^◌, [], ◌∷◌, length, IfOk};
ghost use Rattle.jc_lexer.specs.declared.token.Sign.TheVariants as sign_of;
ghost use Rattle.jc_tree.specs.declared.statement.AnnotationValue.TheVariants as value_of;
ghost use Rattle.jc_tree.specs.declared.statement.AnnotationValue.{AnnotationValue};
ghost use Rattle.jc_reading.specs.Giving.{Gives, Is};
ghost use Rattle.jc_reading.specs.Kinds.{one_of, sign_code};
ghost use Rattle.jc_reading.specs.Reading.{Read, That, an_ident_at, as_new, becoming, commas_run, in_turn, noting, of_kind, perhaps, picking};
ghost use Rattle.jc_expr_laws.specs.ExprReading.{exprs};
ghost use Rattle.jc_part_laws.specs.PartReading.{annotation_run, closing_run, modifier_made, modifier_run, modifier_word_of_kind, modifiers_run, pair_run, pairs_run, picks_modifier, row_run, value_made, value_run};
ghost use Rattle.jc_parse_parts.specs.Lists.{or_no_list};
ghost use Rattle.jc_reading.specs.Reach.{};
ghost use Rattle.jc_parse_parts.specs.Parts.{named_value, row_tree, row_value, unnamed_value};
ghost use Rattle.jc_parse_parts.specs.declared.trees.ValueRow.{ValueRow};

use crate::lists::{many, no_list, separated};
use crate::names::{more_names, name, past_sign, past_sign_at};
use crate::trees::ValueRow;
use jc_lexer::{Key, Sign, Token, TokenKind};
use jc_parse_expr::conditional_within;
use jc_reading::{Found, Halt, without};
use jc_rules::{Items, WantOfMemory};
use jc_tree::{Annotation, AnnotationValue, Modifier, ModifierWord, Pair};
use std::alloc::Global;

/// Whether what closes a row of values stands there: a comma or a brace.
#[tactic(auto, using(crate::proofs::PartSteps::two_of))]
fn is_row_end(tokens: &[Token]) -> bool
    ensures { result ≡ one_of (sign_code sign_of.Comma ∷ sign_code sign_of.RightBrace ∷ []) tokens.now }
{
    past_sign(Sign::Comma, tokens).is_some() || past_sign(Sign::RightBrace, tokens).is_some()
}

/// The brace that closes a row, and whether a comma stands before it.
fn row_end(tokens: &[Token]) -> Result<Found<'_, bool>, Halt>
    ensures read { Gives result (closing_run sign_of.Comma sign_of.RightBrace tokens.now) }
    ensures shorter { IfOk result (λ f. length f.rest.now ≤ length tokens.now) }
{
    let Some(after) = past_sign(Sign::Comma, tokens) else {
        return match past_sign(Sign::RightBrace, tokens) {
            Some(rest) => Ok(Found {
                value: false,
                rest,
                left: rest.len(),
            }),
            None => Err(Halt::Stopped(tokens.len())),
        };
    };
    match past_sign(Sign::RightBrace, after) {
        Some(rest) => Ok(Found {
            value: true,
            rest,
            left: rest.len(),
        }),
        None => Err(Halt::Stopped(after.len())),
    }
}

/// A row without values.
fn empty_row(alloc: Global, tokens: &[Token]) -> Result<Found<'_, ValueRow>, Halt>
    ensures read { Gives result (becoming (row_value []) (closing_run sign_of.Comma sign_of.RightBrace tokens.now)) }
    ensures shorter { IfOk result (λ f. length f.rest.now ≤ length tokens.now) }
{
    let end = row_end(tokens)?;
    Ok(Found {
        value: ValueRow {
            values: Items::new(alloc),
            trailing: end.value,
        },
        rest: end.rest,
        left: end.left,
    })
}

/// A row of these values.
fn row_of(values: Found<'_, Items<AnnotationValue>>) -> Result<Found<'_, ValueRow>, Halt>
    ensures read { Gives result (noting values.entry.left (becoming (row_value values.entry.value) (closing_run sign_of.Comma sign_of.RightBrace values.entry.rest.now))) }
    ensures shorter { IfOk result (λ f. length f.rest.now ≤ length values.entry.rest.now) }
{
    match row_end(values.rest) {
        Ok(end) => Ok(Found {
            value: ValueRow {
                values: values.value,
                trailing: end.value,
            },
            rest: end.rest,
            left: values.left.min(end.left),
        }),
        Err(Halt::Stopped(left)) => {
            let left = values.left.min(left);
            Err(without(values, Halt::Stopped(left)))
        }
        Err(Halt::WantOfMemory) => Err(without(values, Halt::WantOfMemory)),
    }
}

/// The value of a row that stands behind the brace at `at`.
fn list_of(
    at: u32,
    left: usize,
    row: Result<Found<'_, ValueRow>, Halt>,
) -> Result<Found<'_, AnnotationValue>, Halt>
    ensures read { (m : Read ValueRow) → Gives row.entry m → Gives result (noting left (becoming (λ r. value_of.List at r.values r.trailing) m)) }
    ensures shorter { (n : _) → IfOk row.entry (λ f. length f.rest.now ≤ n) → IfOk result (λ f. length f.rest.now ≤ n) }
{
    match row {
        Ok(found) => {
            let row = found.value;
            Ok(Found {
                value: AnnotationValue::List {
                    at,
                    values: row.values,
                    trailing: row.trailing,
                },
                rest: found.rest,
                left: left.min(found.left),
            })
        }
        Err(Halt::Stopped(reach)) => Err(Halt::Stopped(left.min(reach))),
        Err(Halt::WantOfMemory) => Err(Halt::WantOfMemory),
    }
}

/// An expression as a value.
fn plain_value(
    alloc: Global,
    tokens: &[Token],
    height: u32,
) -> Result<Found<'_, AnnotationValue>, Halt>
    requires { length tokens.now < 2 ^ 32 }
    ensures read { Gives result (as_new value_made (as_new That (exprs.conditional height)) tokens.now) }
    ensures shorter { IfOk result (λ f. length f.rest.now ≤ length tokens.now) }
{
    let found = conditional_within(alloc, tokens, height)?;
    Ok(Found {
        value: AnnotationValue::Value(found.value),
        rest: found.rest,
        left: found.left,
    })
}

/// Values with commas between them.
#[cycle(values)]
fn some_values(
    alloc: Global,
    tokens: &[Token],
    height: u32,
) -> Result<Found<'_, Items<AnnotationValue>>, Halt>
    requires { length tokens.now < 2 ^ 32 }
    ensures read { Gives result (commas_run (value_run exprs height) tokens.now) }
    ensures shorter { IfOk result (λ f. length f.rest.now ≤ length tokens.now) }
{
    separated(
        alloc,
        Sign::Comma,
        tokens,
        |ts|
            requires { length ts.now < 2 ^ 32 }
            ensures { Gives result (value_run exprs height ts.now) }
        { value_within(alloc, ts, height) },
    )
}

/// The values behind a brace, and their end.
#[cycle(values)]
#[tactic(auto, using(crate::proofs::PartSteps::value_row_empty, crate::proofs::PartSteps::value_row_on, crate::proofs::PartSteps::value_row_halts))]
fn value_row(alloc: Global, tokens: &[Token], height: u32) -> Result<Found<'_, ValueRow>, Halt>
    requires { length tokens.now < 2 ^ 32 }
    ensures read { Gives result (as_new row_tree (row_run sign_of.Comma sign_of.RightBrace (value_run exprs height)) tokens.now) }
    ensures shorter { IfOk result (λ f. length f.rest.now ≤ length tokens.now) }
{
    if is_row_end(tokens) {
        return empty_row(alloc, tokens);
    }
    let values = some_values(alloc, tokens, height)?;
    row_of(values)
}

/// A value of an annotation, of at most this height.
#[cycle(values)]
pub fn value_within(
    alloc: Global,
    tokens: &[Token],
    height: u32,
) -> Result<Found<'_, AnnotationValue>, Halt>
    requires { length tokens.now < 2 ^ 32 }
    ensures read { Gives result (value_run exprs height tokens.now) }
    ensures shorter { IfOk result (λ f. length f.rest.now ≤ length tokens.now) }
{
    if height == 0 {
        return Err(Halt::Stopped(tokens.len()));
    }
    match past_sign_at(Sign::LeftBrace, tokens) {
        Some((at, inside)) => list_of(at, inside.len(), value_row(alloc, inside, height - 1)),
        None => plain_value(alloc, tokens, height),
    }
}

/// A value with a name before it.
fn named_pair(alloc: Global, tokens: &[Token], height: u32) -> Result<Found<'_, Pair>, Halt>
    requires { length tokens.now < 2 ^ 32 }
    ensures read { Gives result (as_new named_value (in_turn an_ident_at (in_turn (of_kind (sign_code sign_of.Assign)) (value_run exprs height))) tokens.now) }
    ensures shorter { IfOk result (λ f. length f.rest.now ≤ length tokens.now) }
{
    let name = name(alloc, tokens)?;
    let Some(after) = past_sign(Sign::Assign, name.rest) else {
        return Err(Halt::Stopped(name.left.min(name.rest.len())));
    };
    let value = after!(value_within(alloc, after, height), name.left, after.len());
    Ok(Found {
        value: Pair {
            name: Some(name.value),
            value: value.value,
        },
        rest: value.rest,
        left: least!(name.left, after.len(), value.left),
    })
}

/// A value with or without a name before it.
#[tactic(auto, using(crate::proofs::PartSteps::pair_named, crate::proofs::PartSteps::pair_low))]
fn pair_within(alloc: Global, tokens: &[Token], height: u32) -> Result<Found<'_, Pair>, Halt>
    requires { length tokens.now < 2 ^ 32 }
    ensures read { Gives result (pair_run exprs height tokens.now) }
    ensures shorter { IfOk result (λ f. length f.rest.now ≤ length tokens.now) }
{
    if height == 0 {
        return Err(Halt::Stopped(tokens.len()));
    }
    match named_pair(alloc, tokens, height) {
        Ok(found) => Ok(found),
        Err(Halt::Stopped(reach)) => plain_pair(reach, value_within(alloc, tokens, height)),
        Err(Halt::WantOfMemory) => Err(Halt::WantOfMemory),
    }
}

/// A value without a name before it, where no name with a value was read up to a reach.
fn plain_pair(
    left: usize,
    value: Result<Found<'_, AnnotationValue>, Halt>,
) -> Result<Found<'_, Pair>, Halt>
    ensures read { (m : Read AnnotationValue) → Gives value.entry m → Gives result (noting left (becoming unnamed_value m)) }
    ensures shorter { (n : _) → IfOk value.entry (λ f. length f.rest.now ≤ n) → IfOk result (λ f. length f.rest.now ≤ n) }
{
    match value {
        Ok(found) => Ok(Found {
            value: Pair {
                name: None,
                value: found.value,
            },
            rest: found.rest,
            left: left.min(found.left),
        }),
        Err(Halt::Stopped(reach)) => Err(Halt::Stopped(left.min(reach))),
        Err(Halt::WantOfMemory) => Err(Halt::WantOfMemory),
    }
}

/// Pairs with commas between them.
fn some_pairs(alloc: Global, tokens: &[Token], height: u32) -> Result<Found<'_, Items<Pair>>, Halt>
    requires { length tokens.now < 2 ^ 32 }
    ensures read { Gives result (commas_run (pair_run exprs height) tokens.now) }
    ensures shorter { IfOk result (λ f. length f.rest.now ≤ length tokens.now) }
{
    separated(
        alloc,
        Sign::Comma,
        tokens,
        |ts| pair_within(alloc, ts, height),
    )
}

/// Pairs with commas between them, where they stand there.
fn perhaps_pairs(
    alloc: Global,
    tokens: &[Token],
    height: u32,
) -> Result<Found<'_, Items<Pair>>, WantOfMemory>
    requires { length tokens.now < 2 ^ 32 }
    ensures read { IfOk result (λ f. Is f (as_new or_no_list (perhaps (commas_run (pair_run exprs height))) tokens.now)) }
    ensures shorter { IfOk result (λ f. length f.rest.now ≤ length tokens.now) }
{
    match some_pairs(alloc, tokens, height) {
        Ok(found) => Ok(found),
        Err(Halt::Stopped(left)) => Ok(no_list(alloc, tokens, left)),
        Err(Halt::WantOfMemory) => Err(WantOfMemory),
    }
}

/// Pairs between parentheses.
#[tactic(auto, using(crate::proofs::PartSteps::pairs_shut, crate::proofs::PartSteps::pairs_closed, crate::proofs::PartSteps::pairs_open))]
fn pairs_within(
    alloc: Global,
    tokens: &[Token],
    height: u32,
) -> Result<Found<'_, Items<Pair>>, Halt>
    requires { length tokens.now < 2 ^ 32 }
    ensures read { Gives result (pairs_run exprs height tokens.now) }
    ensures shorter { IfOk result (λ f. length f.rest.now ≤ length tokens.now) }
{
    let Some(inside) = past_sign(Sign::LeftParen, tokens) else {
        return Err(Halt::Stopped(tokens.len()));
    };
    let pairs = perhaps_pairs(alloc, inside, height)?;
    match past_sign(Sign::RightParen, pairs.rest) {
        Some(rest) => Ok(Found {
            value: pairs.value,
            rest,
            left: least!(inside.len(), pairs.left, rest.len()),
        }),
        None => {
            let left = least!(inside.len(), pairs.left, pairs.rest.len());
            Err(without(pairs, Halt::Stopped(left)))
        }
    }
}

/// Pairs between parentheses, where they stand there.
fn pairs_there(
    alloc: Global,
    tokens: &[Token],
    height: u32,
) -> Result<Found<'_, Option<Items<Pair>>>, WantOfMemory>
    requires { length tokens.now < 2 ^ 32 }
    ensures read { IfOk result (λ f. Is f (perhaps (pairs_run exprs height) tokens.now)) }
    ensures shorter { IfOk result (λ f. length f.rest.now ≤ length tokens.now) }
{
    match pairs_within(alloc, tokens, height) {
        Ok(found) => Ok(Found {
            value: Some(found.value),
            rest: found.rest,
            left: found.left,
        }),
        Err(Halt::Stopped(left)) => Ok(Found {
            value: None,
            rest: tokens,
            left,
        }),
        Err(Halt::WantOfMemory) => Err(WantOfMemory),
    }
}

/// An annotation whose values have at most this height.
#[tactic(auto, unfolding(jc_part_laws::specs::PartReading::annotation_run))]
pub fn annotation_within(
    alloc: Global,
    tokens: &[Token],
    height: u32,
) -> Result<Found<'_, Annotation>, Halt>
    requires { length tokens.now < 2 ^ 32 }
    ensures read { Gives result (annotation_run exprs height tokens.now) }
    ensures shorter { IfOk result (λ f. length f.rest.now ≤ length tokens.now) }
{
    let Some((at, after)) = past_sign_at(Sign::At, tokens) else {
        return Err(Halt::Stopped(tokens.len()));
    };
    let first = after!(name(alloc, after), after.len());
    let more = more_names(alloc, first.rest)?;
    let pairs = pairs_there(alloc, more.rest, height)?;
    Ok(Found {
        value: Annotation {
            at,
            first: first.value,
            more: more.value,
            pairs: pairs.value,
        },
        rest: pairs.rest,
        left: least!(after.len(), first.left, more.left, pairs.left),
    })
}

/// The word of a modifier.
fn word_of(kind: &TokenKind) -> Option<ModifierWord>
    ensures { result ≡ modifier_word_of_kind kind.now }
{
    match kind {
        TokenKind::Key(Key::Public) => Some(ModifierWord::Public),
        TokenKind::Key(Key::Protected) => Some(ModifierWord::Protected),
        TokenKind::Key(Key::Private) => Some(ModifierWord::Private),
        TokenKind::Key(Key::Static) => Some(ModifierWord::Static),
        TokenKind::Key(Key::Abstract) => Some(ModifierWord::Abstract),
        TokenKind::Key(Key::Final) => Some(ModifierWord::Final),
        TokenKind::Key(Key::Native) => Some(ModifierWord::Native),
        TokenKind::Key(Key::Volatile) => Some(ModifierWord::Volatile),
        TokenKind::Key(Key::Transient) => Some(ModifierWord::Transient),
        _ => None,
    }
}

/// A word as a modifier.
fn word_within(tokens: &[Token]) -> Result<Found<'_, Modifier>, Halt>
    ensures read { Gives result (as_new modifier_made (as_new That (picking picks_modifier)) tokens.now) }
    ensures shorter { IfOk result (λ f. length f.rest.now ≤ length tokens.now) }
{
    match tokens {
        [first, rest @ ..] => match word_of(&first.kind) {
            Some(word) => Ok(Found {
                value: Modifier::Word {
                    at: first.from,
                    word,
                },
                rest,
                left: rest.len(),
            }),
            None => Err(Halt::Stopped(tokens.len())),
        },
        _ => Err(Halt::Stopped(0)),
    }
}

/// An annotation or a word.
#[tactic(auto, using(crate::proofs::PartSteps::modifier_annotated, crate::proofs::PartSteps::modifier_halts, crate::proofs::PartSteps::modifier_word))]
pub fn modifier_within(
    alloc: Global,
    tokens: &[Token],
    height: u32,
) -> Result<Found<'_, Modifier>, Halt>
    requires { length tokens.now < 2 ^ 32 }
    ensures read { Gives result (modifier_run exprs height tokens.now) }
    ensures shorter { IfOk result (λ f. length f.rest.now ≤ length tokens.now) }
{
    if past_sign(Sign::At, tokens).is_none() {
        return word_within(tokens);
    }
    let found = annotation_within(alloc, tokens, height)?;
    Ok(Found {
        value: Modifier::Annotation(found.value),
        rest: found.rest,
        left: found.left,
    })
}

/// Any number of modifiers.
pub fn modifiers_within(
    alloc: Global,
    tokens: &[Token],
    height: u32,
) -> Result<Found<'_, Items<Modifier>>, WantOfMemory>
    requires { length tokens.now < 2 ^ 32 }
    ensures read { IfOk result (λ f. Is f (modifiers_run exprs height tokens.now)) }
    ensures shorter { IfOk result (λ f. length f.rest.now ≤ length tokens.now) }
{
    many(alloc, tokens, |ts| modifier_within(alloc, ts, height))
}
