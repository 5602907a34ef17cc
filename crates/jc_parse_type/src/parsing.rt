//! The longest type at a token.
ghost use Rattle.std.specs.Prelude.{◌≡◌, ◌+◌, ◌-◌, ◌<◌, ◌≤◌, ◌^◌, List, drop, length, IfErr, IfOk};
ghost use Rattle.jc_lexer.specs.declared.token.Token.{Token};
ghost use Rattle.jc_tree.specs.declared.types.TypeTree.{TypeTree};
ghost use Rattle.jc_grammar.specs.Spelling.{SpellsType, most_height};
ghost use Rattle.jc_parse_type.specs.TypeAnswers.{IsTypeReach, NoTypeStands, TypeStands};

use crate::reading::type_within;
use jc_lexer::Token;
use jc_reading::Halt;
use jc_rules::Stop;
use jc_tree::{ParseFault, TypeTree};
use std::alloc::Global;

/// Trees of more than this height spell nothing.
const MOST_HEIGHT: u32 = 200;

/// A type, the token behind it, and the reach: the first token such that no type begins with the tokens up to and with it.
#[derive(Drop)]
pub struct TypeFound {
    pub tree: TypeTree,
    pub next: u32,
    pub reach: u32,
}

/// The longest type that begins at a token (JLS 4), of at most 200 heights. Where none begins there, the fault is `Syntax` with the
/// reach as its token.
pub fn type_at(alloc: Global, tokens: &[Token], at: u32) -> Result<TypeFound, Stop<ParseFault>>
    requires { (at ≤ length tokens.now) × (length tokens.now < 2 ^ 32) }
    ensures found { IfOk result (λ f. (f.next ≤ length tokens.now) × TypeStands tokens.now at f.tree f.next) }
    ensures longest { IfOk result (λ f. (ty : TypeTree) (rest : List Token) → SpellsType most_height (drop at tokens.now) ty rest → length tokens.now ≤ f.next + length rest) }
    ensures reach { IfOk result (λ f. IsTypeReach tokens.now at f.reach) }
    ensures none { IfErr result (λ stop. NoTypeStands tokens.now at stop) }
{
    let (_, rest) = tokens.split_at(at as usize);
    match type_within(alloc, rest, MOST_HEIGHT) {
        Ok(found) => Ok(TypeFound {
            tree: found.value,
            next: place(tokens, found.rest.len()),
            reach: place(tokens, found.left),
        }),
        Err(Halt::Stopped(left)) => Err(Stop::Refused(ParseFault::Syntax {
            token: place(tokens, left),
        })),
        Err(Halt::WantOfMemory) => Err(Stop::WantOfMemory),
    }
}

/// The number of the token at which so many are left.
fn place(tokens: &[Token], left: usize) -> u32
    requires { (left ≤ length tokens.now) × (length tokens.now < 2 ^ 32) }
    ensures { result ≡ length tokens.now - left }
{
    (tokens.len() - left) as u32
}
