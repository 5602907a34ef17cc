//! The longest expression at a token.
ghost use Rattle.std.specs.Prelude.{◌≡◌, ◌+◌, ◌-◌, ◌<◌, ◌≤◌, ◌^◌, List, drop, length, IfErr, IfOk};
ghost use Rattle.jc_lexer.specs.declared.token.Token.{Token};
ghost use Rattle.jc_tree.specs.declared.expression.Expr.{Expr};
ghost use Rattle.jc_grammar.specs.Spelling.{SpellsExpr, most_height};
ghost use Rattle.jc_expr_laws.specs.ExprAnswers.{ExprStands, IsExprReach, IsOnlyExpr, NoExprStands};

use crate::within::expr_within;
use jc_lexer::Token;
use jc_reading::Halt;
use jc_rules::Stop;
use jc_tree::{Expr, ParseFault};
use std::alloc::Global;

/// Trees of more than this height spell nothing.
const MOST_HEIGHT: u32 = 200;

/// An expression, the token behind it, and the reach: the first token such that no expression begins with the tokens up to and with it.
#[derive(Drop)]
pub struct ExprFound {
    pub tree: Expr,
    pub next: u32,
    pub reach: u32,
}

/// The longest expression that begins at a token (JLS 15), of at most 200 heights, which is the only tree of its tokens. Where none begins
/// there, the fault is `Syntax` with the reach as its token.
pub fn expr_at(alloc: Global, tokens: &[Token], at: u32) -> Result<ExprFound, Stop<ParseFault>>
    requires { (at ≤ length tokens.now) × (length tokens.now < 2 ^ 32) }
    ensures found { IfOk result (λ f. (f.next ≤ length tokens.now) × ExprStands tokens.now at f.tree f.next) }
    ensures only { IfOk result (λ f. IsOnlyExpr tokens.now at f.tree f.next) }
    ensures longest { IfOk result (λ f. (other : Expr) (rest : List Token) → SpellsExpr most_height (drop at tokens.now) other rest → length tokens.now ≤ f.next + length rest) }
    ensures reach { IfOk result (λ f. IsExprReach tokens.now at f.reach) }
    ensures none { IfErr result (λ stop. NoExprStands tokens.now at stop) }
{
    let (_, rest) = tokens.split_at(at as usize);
    match expr_within(alloc, rest, MOST_HEIGHT) {
        Ok(found) => Ok(ExprFound {
            tree: found.value,
            next: place(tokens, found.rest.len()),
            reach: place(tokens, found.left),
        }),
        Err(Halt::Stopped(left)) => Err(Stop::Refused(ParseFault::Syntax {
            token: place(tokens, left),
        })),
        Err(Halt::WantOfMemory) => Err(Stop::WantOfMemory),
    }
}

/// The number of the token at which so many are left.
fn place(tokens: &[Token], left: usize) -> u32
    requires { (left ≤ length tokens.now) × (length tokens.now < 2 ^ 32) }
    ensures { result ≡ length tokens.now - left }
{
    (tokens.len() - left) as u32
}
