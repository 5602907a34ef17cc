//! Tokens of a text that stands behind others.
ghost use Rattle.std.specs.Prelude.{◌≡◌, ◌++◌, map, IfOk};
ghost use Rattle.jc_front.specs.Library.{moved};

use jc_lexer::Token;
use jc_rules::{Items, WantOfMemory};
use std::alloc::Global;

/// The token behind so many bytes more. Want of memory stands for an offset of 2^32 and more.
fn moved(token: Token, by: u32) -> Result<Token, WantOfMemory>
    ensures { IfOk result (λ it. it ≡ moved by token) }
{
    match (token.from.checked_add(by), token.to.checked_add(by)) {
        (Some(from), Some(to)) => Ok(Token {
            kind: token.kind,
            from,
            to,
            touches: token.touches,
        }),
        _ => Err(WantOfMemory),
    }
}

/// The tokens behind so many bytes more.
pub fn all_moved(alloc: Global, tokens: Items<Token>, by: u32) -> Result<Items<Token>, WantOfMemory>
    ensures { IfOk result (λ it. it ≡ map (moved by) tokens) }
{
    let mut list = Items::new(alloc);
    for token in tokens.into_vec() {
        list.push(moved(token, by)?)?;
    }
    Ok(list)
}
