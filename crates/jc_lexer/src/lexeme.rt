//! The first piece of a text: white space, a comment or a token (JLS 3.5).
ghost use Rattle.std.specs.Prelude.{◌≡◌, ◌+◌, ◌<◌, ◌≤◌, length, IfOk, IfSome};
ghost use Rattle.jc_lexer.specs.Lexemes.{torn, is_ended, closes_at, closing, comment, word_step, word, numeric, character, string_step, flawed, sign, lexeme, first, IsProgress, begins_lexeme};
ghost use Rattle.jc_lexer.specs.Numbers.{number};

use crate::LexFault;
use crate::keyword::key_of;
use crate::literal::{CharBody, Flaw, StringBody, char_body, string_body};
use crate::number::{Numeral, number};
use crate::signs::sign_at;
use crate::symbol::{
    BAD_ESCAPE, Class, END, Symbol, behind, code_at, from_at, is, is_break, is_decimal, is_high,
    is_space, run_length, word_part, word_start,
};
use crate::token::TokenKind;
use jc_rules::{Boxed, Text, WantOfMemory};
use std::alloc::Global;

/// What a text begins with.
#[derive(Debug, Drop)]
pub enum Step {
    /// White space or a comment of this many symbols.
    Gap(usize),
    /// A lexeme of this many symbols.
    Lexeme { kind: TokenKind, len: usize },
    /// Nothing: the source ends.
    End,
    /// Why the text can't go on.
    Fault(LexFault),
}

/// The fault that a text breaks off at, which its last symbol marks.
#[tactic(auto, unfolding(crate::specs::Lexemes::torn))]
fn torn(text: &[Symbol]) -> LexFault
    ensures { result ≡ torn text.now }
{
    match text.last() {
        Some(mark) if mark.code == BAD_ESCAPE => LexFault::BadEscape { at: mark.from },
        Some(mark) => LexFault::NotUtf8 { at: mark.from },
        None => LexFault::NotUtf8 { at: 0 },
    }
}

/// Whether a text goes on to the end of its source.
#[tactic(auto, unfolding(crate::specs::Lexemes::is_ended))]
fn is_ended(text: &[Symbol]) -> bool
    ensures { result ≡ is_ended text.now }
{
    match text.last() {
        Some(mark) => mark.code == END,
        None => true,
    }
}

/// Whether `*/` stands at a place.
fn closes_at(text: &[Symbol], place: usize) -> bool
    requires { place < length text.now }
    ensures { result ≡ closes_at text.now place }
{
    is(code_at(text, place), b'*') && is(code_at(text, place + 1), b'/')
}

/// How many symbols end with the first `*/`.
#[tactic(auto, using(crate::proofs::LexemeTurns::closing_turn))]
fn closing(text: &[Symbol]) -> Option<usize>
    ensures value { result ≡ closing 0 text.now }
    ensures within { IfSome result (λ len. len ≤ length text.now + 1) }
{
    for n in 0..text.len() {
        if closes_at(text, n) {
            return Some(n + 2);
        }
    }
    None
}

/// The comment of a text that begins with `/*`.
#[tactic(auto, unfolding(crate::specs::Lexemes::comment))]
fn comment(text: &[Symbol]) -> Step
    ensures value { result ≡ comment text.now }
    ensures progress { IsProgress result }
{
    match closing(behind(text, 2)) {
        Some(len) => Step::Gap(len + 2),
        None if is_ended(text) => Step::Fault(LexFault::OpenComment {
            at: from_at(text, 0),
        }),
        None => Step::Fault(torn(text)),
    }
}

#[tactic(auto, unfolding(crate::specs::Words::word_kind))]
fn word_step(alloc: Global, text: &str, len: usize) -> Result<Step, WantOfMemory>
    ensures { IfOk result (λ step. step ≡ word_step text.now len) }
{
    let kind = match key_of(text) {
        Some(key) => TokenKind::Key(key),
        None => TokenKind::Word(Text::copied(alloc, text)?),
    };
    Ok(Step::Lexeme { kind, len })
}

/// The keyword or the identifier whose first letter stands before the text. What `letters` held is lost.
#[tactic(auto, unfolding(crate::specs::Lexemes::word))]
fn word(
    alloc: Global,
    letters: &mut String,
    letter: char,
    text: &[Symbol],
) -> Result<Step, WantOfMemory>
    ensures value { IfOk result (λ step. step ≡ word letter text.now) }
    ensures progress { IfOk result (λ step. IsProgress step) }
{
    letters.clear();
    letters.push(letter)?;
    for (n, symbol) in text.iter().enumerate() {
        match word_part(symbol.code) {
            Some(part) => letters.push(part)?,
            None => return word_step(alloc, letters.as_str(), n + 1),
        }
    }
    word_step(alloc, letters.as_str(), text.len() + 1)
}

/// The literal of a text that begins with a digit.
fn numeric(text: &[Symbol]) -> Step
    ensures value { result ≡ numeric text.now (number text.now) }
    ensures progress { IsProgress result }
{
    match number(text) {
        Numeral::Whole {
            value,
            decimal,
            len,
        } => {
            let suffix = code_at(text, len);
            let long = is(suffix, b'L') || is(suffix, b'l');
            let kind = TokenKind::Number {
                value,
                long,
                decimal,
            };
            Step::Lexeme {
                kind,
                len: if long { len + 1 } else { len },
            }
        }
        Numeral::Malformed => Step::Fault(LexFault::BadLiteral {
            at: from_at(text, 0),
        }),
        Numeral::Real => Step::Fault(LexFault::Floating {
            at: from_at(text, 0),
        }),
        Numeral::Cut => Step::Fault(torn(text)),
    }
}

/// The fault of a literal that the text begins with.
fn flawed(flaw: Flaw, text: &[Symbol]) -> Step
    ensures { result ≡ flawed flaw text.now }
{
    match flaw {
        Flaw::Wrong => Step::Fault(LexFault::BadLiteral {
            at: from_at(text, 0),
        }),
        Flaw::Open => Step::Fault(LexFault::OpenText {
            at: from_at(text, 0),
        }),
        Flaw::Torn => Step::Fault(torn(text)),
    }
}

/// The literal of a text that begins with `'`.
#[tactic(auto, unfolding(crate::specs::Lexemes::character))]
fn character(text: &[Symbol]) -> Step
    ensures value { result ≡ character text.now }
    ensures progress { IsProgress result }
{
    match char_body(behind(text, 1)) {
        CharBody::Shut { unit, len } => Step::Lexeme {
            kind: TokenKind::CharLit(unit),
            len: len + 1,
        },
        CharBody::Amiss(flaw) => flawed(flaw, text),
    }
}

/// The literal of a text that begins with `"`.
#[tactic(auto, unfolding(crate::specs::Lexemes::string_step))]
fn string(alloc: Global, text: &[Symbol]) -> Result<Step, WantOfMemory>
    ensures value { IfOk result (λ step. step ≡ string_step text.now) }
    ensures progress { IfOk result (λ step. IsProgress step) }
{
    match string_body(alloc, behind(text, 1))? {
        StringBody::Closed { units, len } => Ok(Step::Lexeme {
            kind: TokenKind::StringLit(Boxed::new(alloc, units)?),
            len: len + 1,
        }),
        StringBody::Broken(flaw) => Ok(flawed(flaw, text)),
    }
}

/// The sign that a text begins with, or the fault of its first symbol.
#[tactic(auto, unfolding(crate::specs::Lexemes::sign))]
fn sign(text: &[Symbol]) -> Step
    ensures value { result ≡ sign text.now }
    ensures progress { IsProgress result }
{
    if let Some(spelling) = sign_at(text) {
        return Step::Lexeme {
            kind: TokenKind::Sign(spelling.sign),
            len: spelling.len,
        };
    }
    let at = from_at(text, 0);
    if is(code_at(text, 0), b'$') {
        Step::Fault(LexFault::Dollar { at })
    } else if is_high(code_at(text, 0)) && is_break(code_at(text, 1)) {
        Step::Fault(torn(text))
    } else {
        Step::Fault(LexFault::BadCharacter { at })
    }
}

/// The lexeme that a text begins with, where it begins with no white space or comment and doesn't end.
#[tactic(auto, unfolding(crate::specs::Lexemes::lexeme))]
fn lexeme(alloc: Global, letters: &mut String, text: &[Symbol]) -> Result<Step, WantOfMemory>
    ensures value { IfOk result (λ step. step ≡ lexeme text.now) }
    ensures progress { IfOk result (λ step. IsProgress step) }
{
    let code = code_at(text, 0);
    if let Some(letter) = word_start(code) {
        return word(alloc, letters, letter, behind(text, 1));
    }
    if is_decimal(code) {
        return Ok(numeric(text));
    }
    if is(code, b'"') {
        return string(alloc, text);
    }
    if is(code, b'\'') {
        return Ok(character(text));
    }
    if is(code, b'.') && is_decimal(code_at(text, 1)) {
        return Ok(Step::Fault(LexFault::Floating {
            at: from_at(text, 0),
        }));
    }
    Ok(sign(text))
}

/// What a text begins with. The string is for the letters of a word, so that a short one takes no memory.
#[tactic(auto, unfolding(crate::specs::Lexemes::first))]
pub fn first(alloc: Global, letters: &mut String, text: &[Symbol]) -> Result<Step, WantOfMemory>
    ensures value { IfOk result (λ step. step ≡ first text.now) }
    ensures progress { IfOk result (λ step. IsProgress step) }
{
    let code = code_at(text, 0);
    if code == END {
        return Ok(Step::End);
    }
    if is_break(code) {
        return Ok(Step::Fault(torn(text)));
    }
    if is_space(code) {
        return Ok(Step::Gap(run_length(Class::Space, behind(text, 1)) + 1));
    }
    if is(code, b'/') && is(code_at(text, 1), b'/') {
        return Ok(Step::Gap(run_length(Class::Line, behind(text, 2)) + 2));
    }
    if is(code, b'/') && is(code_at(text, 1), b'*') {
        return Ok(comment(text));
    }
    lexeme(alloc, letters, text)
}

/// Whether a text begins with a lexeme: it doesn't end, and begins with no white space or comment.
#[tactic(auto, unfolding(crate::specs::Lexemes::begins_lexeme))]
pub fn begins_lexeme(text: &[Symbol]) -> bool
    ensures { result ≡ begins_lexeme text.now }
{
    let code = code_at(text, 0);
    let next = code_at(text, 1);
    let comment = is(code, b'/') && (is(next, b'/') || is(next, b'*'));
    code != END && !is_break(code) && !is_space(code) && !comment
}
