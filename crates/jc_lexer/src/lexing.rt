//! The tokens of one source.
ghost use Rattle.std.specs.Prelude.{◌≡◌, ◌≤◌, length, IfOk, IfErr, Ok};
ghost use Rattle.jc_lexer.specs.Lexing.{lexed_text, lexed, IsTextFault, IsSourceFault};

use crate::LexFault;
use crate::decode::decoded;
use crate::lexeme::{Step, begins_lexeme, first};
use crate::symbol::{Symbol, behind, from_at};
use crate::token::Token;
use jc_rules::{Items, Stop};
use std::alloc::Global;

/// The tokens of a text.
fn lexed_text(alloc: Global, text: &[Symbol]) -> Result<Items<Token>, Stop<LexFault>>
    ensures found { IfOk result (λ list. lexed_text text.now ≡ Ok list) }
    ensures fault { IfErr result (λ stop. IsTextFault text.now stop) }
{
    let mut list = Items::new(alloc);
    let mut letters = String::new(alloc);
    let mut rest = text;
    while !rest.is_empty() {
        match first(alloc, &mut letters, rest)? {
            Step::Gap(len) => rest = behind(rest, len),
            Step::Lexeme { kind, len } => {
                let next = behind(rest, len);
                list.push(Token {
                    kind,
                    from: from_at(rest, 0),
                    to: from_at(next, 0),
                    touches: begins_lexeme(next),
                })?;
                rest = next;
            }
            Step::End => return Ok(list),
            Step::Fault(fault) => return Err(Stop::Refused(fault)),
        }
    }
    Ok(list)
}

/// The tokens of a source of at most 16,777,216 bytes, in their order. A fault is the first place where the text can't go on.
/// Where the bytes are no UTF-8 or an escape is malformed, that is the fault unless the text before it decides an earlier one.
pub fn tokens(alloc: Global, bytes: &[u8]) -> Result<Items<Token>, Stop<LexFault>>
    requires { length bytes.now ≤ 16777216 }
    ensures found { IfOk result (λ list. lexed bytes.now ≡ Ok list) }
    ensures fault { IfErr result (λ stop. IsSourceFault bytes.now stop) }
{
    let text = decoded(alloc, bytes)?;
    lexed_text(alloc, text.slice())
}
