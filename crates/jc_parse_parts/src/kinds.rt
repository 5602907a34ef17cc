//! Types with how many tokens are left behind them (JLS 4).
ghost use Rattle.std.specs.Prelude.{◌<◌, ◌≤◌, ◌^◌, length, IfOk};
ghost use Rattle.jc_reading.specs.Giving.{Gives, Is};
ghost use Rattle.jc_parse_type.specs.TypeReading.{class_run, dims_run, type_run};

use jc_lexer::Token;
use jc_reading::{Found, Halt};
use jc_tree::{ClassTree, TypeTree};
use std::alloc::Global;

/// The longest type of at most this height that begins there.
pub fn type_within(
    alloc: Global,
    tokens: &[Token],
    height: u32,
) -> Result<Found<'_, TypeTree>, Halt>
    requires { length tokens.now < 2 ^ 32 }
    ensures read { Gives result (type_run height tokens.now) }
    ensures shorter { IfOk result (λ f. length f.rest.now ≤ length tokens.now) }
{
    jc_parse_type::type_within(alloc, tokens, height)
}

/// The longest class type that begins there, whose arguments have at most this height.
pub fn class_within(
    alloc: Global,
    tokens: &[Token],
    height: u32,
) -> Result<Found<'_, ClassTree>, Halt>
    requires { length tokens.now < 2 ^ 32 }
    ensures read { Gives result (class_run height tokens.now) }
    ensures shorter { IfOk result (λ f. length f.rest.now ≤ length tokens.now) }
{
    jc_parse_type::class_within(alloc, tokens, height)
}

/// How many pairs of brackets stand there.
pub fn dims(tokens: &[Token]) -> Found<'_, u32>
    requires { length tokens.now < 2 ^ 32 }
    ensures read { Is result (dims_run tokens.now) }
    ensures shorter { length result.rest.now ≤ length tokens.now }
{
    jc_parse_type::dims(tokens)
}
