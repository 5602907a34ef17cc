//! What stands at the front.
ghost use Rattle.std.specs.Prelude.{◌≡◌, ◌∷◌, [], ℕ};
ghost use Rattle.jc_lexer.specs.declared.token.Key.TheVariants as key_of;
ghost use Rattle.jc_lexer.specs.declared.token.Sign.TheVariants as sign_of;
ghost use Rattle.jc_reading.specs.Giving.{Gives};
ghost use Rattle.jc_reading.specs.Kinds.{key_code, one_of, sign_code, word_code};
ghost use Rattle.jc_reading.specs.Reading.{Read};
ghost use Rattle.jc_reading.specs.Further.{past, second_is};
ghost use Rattle.jc_unit_laws.specs.MemberReading.{paren_codes, rest_codes};
ghost use Rattle.jc_unit_laws.specs.UnitReading.{statement_codes};
ghost use Rattle.jc_parse_heads.specs.Beginnings.{begins_declaration, begins_modifier, begins_rest, begins_statement, begins_word, declaration_codes, modifier_codes};

use jc_lexer::{Key, Sign, Token, TokenKind};
use jc_parse_nodes::reaching;
use jc_parse_parts::{past_sign, past_word};
use jc_reading::{Found, Halt};

/// Whether a sign stands there.
pub fn sign_stands(sign: Sign, tokens: &[Token]) -> bool
    ensures { result ≡ one_of (sign_code sign ∷ []) tokens.now }
{
    past_sign(sign, tokens).is_some()
}

/// Whether a keyword stands there.
pub fn word_stands(key: Key, tokens: &[Token]) -> bool
    ensures { result ≡ one_of (key_code key ∷ []) tokens.now }
{
    past_word(key, tokens).is_some()
}

/// Whether a token is a name.
fn begins_word(kind: &TokenKind) -> bool
    ensures { result ≡ begins_word kind.now }
{
    match kind {
        TokenKind::Word(_) => true,
        _ => false,
    }
}

/// Whether a name stands there.
#[tactic(auto, using(crate::proofs::Kinded::begins_word_code))]
pub fn name_stands(tokens: &[Token]) -> bool
    ensures { result ≡ one_of (word_code ∷ []) tokens.now }
{
    match tokens {
        [first, ..] => begins_word(&first.kind),
        _ => false,
    }
}

/// Whether a token is a brace, a semicolon or a keyword that a statement begins with, `if` aside.
fn begins_statement(kind: &TokenKind) -> bool
    ensures { result ≡ begins_statement kind.now }
{
    match kind {
        TokenKind::Sign(Sign::LeftBrace)
        | TokenKind::Sign(Sign::Semicolon)
        | TokenKind::Key(Key::While)
        | TokenKind::Key(Key::Do)
        | TokenKind::Key(Key::For)
        | TokenKind::Key(Key::Switch)
        | TokenKind::Key(Key::Return)
        | TokenKind::Key(Key::Break)
        | TokenKind::Key(Key::Continue)
        | TokenKind::Key(Key::Throw)
        | TokenKind::Key(Key::Try) => true,
        _ => false,
    }
}

/// Whether a brace, a semicolon or a keyword that a statement begins with, `if` aside stands there.
#[tactic(auto, using(crate::proofs::Kinded::begins_statement_code))]
pub fn statement_stands(tokens: &[Token]) -> bool
    ensures { result ≡ one_of statement_codes tokens.now }
{
    match tokens {
        [first, ..] => begins_statement(&first.kind),
        _ => false,
    }
}

/// Whether a token is a modifier.
fn begins_modifier(kind: &TokenKind) -> bool
    ensures { result ≡ begins_modifier kind.now }
{
    match kind {
        TokenKind::Sign(Sign::At)
        | TokenKind::Key(Key::Public)
        | TokenKind::Key(Key::Protected)
        | TokenKind::Key(Key::Private)
        | TokenKind::Key(Key::Static)
        | TokenKind::Key(Key::Abstract)
        | TokenKind::Key(Key::Final)
        | TokenKind::Key(Key::Native)
        | TokenKind::Key(Key::Volatile)
        | TokenKind::Key(Key::Transient) => true,
        _ => false,
    }
}

/// Whether a modifier stands there.
#[tactic(auto, using(crate::proofs::Kinded::begins_modifier_code))]
pub fn modifier_stands(tokens: &[Token]) -> bool
    ensures { result ≡ one_of modifier_codes tokens.now }
{
    match tokens {
        [first, ..] => begins_modifier(&first.kind),
        _ => false,
    }
}

/// Whether a token is what the head of a declaration begins with behind its modifiers.
fn begins_rest(kind: &TokenKind) -> bool
    ensures { result ≡ begins_rest kind.now }
{
    match kind {
        TokenKind::Key(Key::Class) | TokenKind::Key(Key::Interface) | TokenKind::Sign(Sign::At) =>
            true,
        _ => false,
    }
}

/// Whether what the head of a declaration begins with behind its modifiers stands there.
#[tactic(auto, using(crate::proofs::Kinded::begins_rest_code))]
pub fn rest_stands(tokens: &[Token]) -> bool
    ensures { result ≡ one_of rest_codes tokens.now }
{
    match tokens {
        [first, ..] => begins_rest(&first.kind),
        _ => false,
    }
}

/// Whether a token is a modifier or the head of a declaration.
fn begins_declaration(kind: &TokenKind) -> bool
    ensures { result ≡ begins_declaration kind.now }
{
    match kind {
        TokenKind::Key(Key::Class)
        | TokenKind::Key(Key::Interface)
        | TokenKind::Sign(Sign::At)
        | TokenKind::Key(Key::Public)
        | TokenKind::Key(Key::Protected)
        | TokenKind::Key(Key::Private)
        | TokenKind::Key(Key::Static)
        | TokenKind::Key(Key::Abstract)
        | TokenKind::Key(Key::Final)
        | TokenKind::Key(Key::Native)
        | TokenKind::Key(Key::Volatile)
        | TokenKind::Key(Key::Transient) => true,
        _ => false,
    }
}

/// Whether a modifier or the head of a declaration stands there.
#[tactic(auto, using(crate::proofs::Kinded::begins_declaration_code))]
pub fn declaration_stands(tokens: &[Token]) -> bool
    ensures { result ≡ one_of declaration_codes tokens.now }
{
    match tokens {
        [first, ..] => begins_declaration(&first.kind),
        _ => false,
    }
}

/// Whether a name and a colon stand there.
pub fn label_stands(tokens: &[Token]) -> bool
    ensures { result ≡ second_is word_code (sign_code sign_of.Colon ∷ []) tokens.now }
{
    match tokens {
        [first, rest @ ..] => begins_word(&first.kind) && sign_stands(Sign::Colon, rest),
        _ => false,
    }
}

/// Whether a name and a left parenthesis stand there.
pub fn call_stands(tokens: &[Token]) -> bool
    ensures { result ≡ second_is word_code paren_codes tokens.now }
{
    match tokens {
        [first, rest @ ..] => begins_word(&first.kind) && sign_stands(Sign::LeftParen, rest),
        _ => false,
    }
}

/// Whether a keyword and a left parenthesis stand there.
pub fn key_call_stands(key: Key, tokens: &[Token]) -> bool
    ensures { result ≡ second_is (key_code key) paren_codes tokens.now }
{
    match past_word(key, tokens) {
        Some(rest) => sign_stands(Sign::LeftParen, rest),
        None => false,
    }
}

/// The same answer, with a reach behind the name that stands first.
#[tactic(auto, using(crate::proofs::Kinded::past_word, crate::proofs::Kinded::past_other))]
pub fn behind_name<'a, T>(
    tokens: &[Token],
    read: Result<Found<'a, T>, Halt>,
) -> Result<Found<'a, T>, Halt>
    ensures { (m : Read T) → Gives read.entry m → Gives result (past word_code tokens.now m) }
{
    match tokens {
        [first, rest @ ..] => {
            if begins_word(&first.kind) {
                reaching(rest.len(), read)
            } else {
                read
            }
        }
        _ => read,
    }
}

/// Whether `static` and a left brace stand there.
pub fn static_block_stands(tokens: &[Token]) -> bool
    ensures { result ≡ second_is (key_code key_of.Static) (sign_code sign_of.LeftBrace ∷ []) tokens.now }
{
    match past_word(Key::Static, tokens) {
        Some(rest) => sign_stands(Sign::LeftBrace, rest),
        None => false,
    }
}

/// The same answer, with a reach behind a `static` that stands first.
pub fn behind_static<'a, T>(
    tokens: &[Token],
    read: Result<Found<'a, T>, Halt>,
) -> Result<Found<'a, T>, Halt>
    ensures { (m : Read T) → Gives read.entry m → Gives result (past (key_code key_of.Static) tokens.now m) }
{
    match past_word(Key::Static, tokens) {
        Some(rest) => reaching(rest.len(), read),
        None => read,
    }
}

/// The same answer, with a reach behind a keyword that stands first.
pub fn reach_behind_key<'a, T>(
    key: Key,
    tokens: &[Token],
    read: Result<Found<'a, T>, Halt>,
) -> Result<Found<'a, T>, Halt>
    ensures { (m : Read T) → Gives read.entry m → Gives result (past (key_code key) tokens.now m) }
{
    match past_word(key, tokens) {
        Some(rest) => reaching(rest.len(), read),
        None => read,
    }
}
