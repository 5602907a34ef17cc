//! Words that are left out.
ghost use Rattle.std.specs.Prelude.{◌≡◌, ◌<◌, ◌^◌, length};
ghost use Rattle.jc_left_out.specs.LeftOut.{first_left_out_word, is_left_out_word, tokens_before};

use jc_lexer::{Key, Token, TokenKind};

/// Whether the language leaves this word out: `native` only outside the prelude.
pub fn is_left_out_word(kind: &TokenKind, prelude: bool) -> bool
    ensures { result ≡ is_left_out_word prelude kind.now }
{
    match kind {
        TokenKind::Key(Key::Float)
        | TokenKind::Key(Key::Double)
        | TokenKind::Key(Key::Assert)
        | TokenKind::Key(Key::Strictfp)
        | TokenKind::Key(Key::Synchronized)
        | TokenKind::Key(Key::Enum) => true,
        TokenKind::Key(Key::Native) => !prelude,
        _ => false,
    }
}

/// The place of the first word that is left out.
#[tactic(auto, using(crate::proofs::PlacesOfTokens::places))]
pub fn first_left_out_word(tokens: &[Token], prelude: bool) -> Option<u32>
    requires { length tokens.now < 2 ^ 32 }
    ensures { result ≡ first_left_out_word prelude tokens.now }
{
    let mut place: u32 = 0;
    for token in tokens {
        if is_left_out_word(&token.kind, prelude) {
            return Some(place);
        }
        place += 1;
    }
    None
}

/// How many tokens stand before an offset.
pub fn tokens_before(tokens: &[Token], at: u32) -> u32
    requires { length tokens.now < 2 ^ 32 }
    ensures { result ≡ tokens_before tokens.now at }
{
    let mut place: u32 = 0;
    for token in tokens {
        if at <= token.from {
            return place;
        }
        place += 1;
    }
    place
}
