//! Statements of at most a height (JLS 14).
ghost use Rattle.std.specs.Prelude.{◌<◌, ◌≤◌, ◌^◌, length, IfOk};
ghost use Rattle.jc_reading.specs.Giving.{Gives, Is};
ghost use Rattle.jc_reading.specs.Reading.{any_number, as_new, in_turn, noting};
ghost use Rattle.jc_expr_laws.specs.ExprReading.{exprs};
ghost use Rattle.jc_unit_laws.specs.MemberReading.{levels};
ghost use Rattle.jc_unit_laws.specs.UnitReading.{arm_run, block_run, body_run, case_item_run, case_run, catch_run, clauses_run, do_run, finally_run, for_run, if_run, label_run, labeled_made, other_run, plain_run, some_clauses_run, switch_run, try_run, while_run, word_run};
ghost use Rattle.jc_parse_heads.specs.UnitCode.{arms_run, braced_groups_run, braced_items_run, branch_once_run, guarded_run, items_until_run, keyed_run, plain_guarded_run, roomy_resources_run, simply_run, some_catches_run, with_node};

use crate::members::item_at;
use jc_lexer::{Key, Sign, Token};
use jc_parse_heads::{
    behind_name, break_at, catch_opening, closed, continue_at, do_test, empty, ended_effect,
    finally_opening, for_opening, label, label_stands, local, local_or_effect, modifier_stands,
    named_label, resources, return_at, roomy_tested, sign_stands, statement_stands, tested,
    throw_at, word_stands,
};
use jc_parse_nodes::{
    Branch, Guarded, arm_branch, arm_of, block_of, boxed, clause_of, do_of, for_of, guarded_of,
    if_else_of, if_of, is_open, labeled_of, last_branch, reaching, single, some, switch_of, try_of,
    try_with_of, while_of, with_last,
};
use jc_parse_parts::{many, row, sign, sign_at, word, word_at};
use jc_reading::{Found, Halt, pushed, without};
use jc_rules::{Items, WantOfMemory};
use jc_tree::{Clause, Stmt};
use std::alloc::Global;

/// A statement as a body.
#[cycle(units)]
#[tactic(auto, using(crate::proofs::Heighted::body_none, crate::proofs::Heighted::body_next))]
pub fn body_within(alloc: Global, tokens: &[Token], height: u32) -> Result<Found<'_, Stmt>, Halt>
    requires { length tokens.now < 2 ^ 32 }
    ensures { Gives result ((levels exprs height).body tokens.now) }
{
    if height == 0 {
        return Err(Halt::Stopped(tokens.len()));
    }
    body_at(alloc, tokens, height - 1)
}

/// A statement behind an `else`.
#[cycle(units)]
#[tactic(auto, using(crate::proofs::Heighted::other_none, crate::proofs::Heighted::other_next))]
pub fn other_within(alloc: Global, tokens: &[Token], height: u32) -> Result<Found<'_, Stmt>, Halt>
    requires { length tokens.now < 2 ^ 32 }
    ensures { Gives result ((levels exprs height).other tokens.now) }
{
    if height == 0 {
        return Err(Halt::Stopped(tokens.len()));
    }
    other_at(alloc, tokens, height - 1)
}

/// A statement or a declaration in a block.
#[cycle(units)]
#[tactic(auto, using(crate::proofs::Heighted::item_none, crate::proofs::Heighted::item_next))]
pub fn item_within(alloc: Global, tokens: &[Token], height: u32) -> Result<Found<'_, Stmt>, Halt>
    requires { length tokens.now < 2 ^ 32 }
    ensures { Gives result ((levels exprs height).item tokens.now) }
{
    if height == 0 {
        return Err(Halt::Stopped(tokens.len()));
    }
    item_at(alloc, tokens, height - 1)
}

/// A statement behind a label of a switch.
#[cycle(units)]
#[tactic(auto, using(crate::proofs::Heighted::case_item_none, crate::proofs::Heighted::case_item_next))]
fn case_item_within(alloc: Global, tokens: &[Token], height: u32) -> Result<Found<'_, Stmt>, Halt>
    requires { length tokens.now < 2 ^ 32 }
    ensures { Gives result ((levels exprs height).case_item tokens.now) }
{
    if height == 0 {
        return Err(Halt::Stopped(tokens.len()));
    }
    case_item_at(alloc, tokens, height - 1)
}

/// Statements, as many as stand there.
#[cycle(units)]
pub fn items(
    alloc: Global,
    tokens: &[Token],
    height: u32,
) -> Result<Found<'_, Items<Stmt>>, WantOfMemory>
    requires { length tokens.now < 2 ^ 32 }
    ensures { IfOk result (λ f. Is f (any_number (levels exprs height).item tokens.now)) }
{
    many(
        alloc,
        tokens,
        |ts|
            requires { length ts.now < 2 ^ 32 }
            ensures { Gives result ((levels exprs height).item ts.now) }
        { item_within(alloc, ts, height) },
    )
}

/// Statements behind a label of a switch, as many as stand there.
#[cycle(units)]
fn case_items(
    alloc: Global,
    tokens: &[Token],
    height: u32,
) -> Result<Found<'_, Items<Stmt>>, WantOfMemory>
    requires { length tokens.now < 2 ^ 32 }
    ensures { IfOk result (λ f. Is f (any_number (levels exprs height).case_item tokens.now)) }
{
    many(
        alloc,
        tokens,
        |ts|
            requires { length ts.now < 2 ^ 32 }
            ensures { Gives result ((levels exprs height).case_item ts.now) }
        { case_item_within(alloc, ts, height) },
    )
}

/// Statements up to a right brace.
#[cycle(units)]
#[tactic(auto, unfolding(jc_parse_heads::specs::UnitCode::items_until_run))]
pub fn items_until(
    alloc: Global,
    tokens: &[Token],
    height: u32,
) -> Result<Found<'_, Items<Stmt>>, Halt>
    requires { length tokens.now < 2 ^ 32 }
    ensures { Gives result (items_until_run height tokens.now) }
{
    let items = items(alloc, tokens, height)?;
    closed(Sign::RightBrace, items)
}

/// Statements between braces.
#[cycle(units)]
#[tactic(auto, unfolding(jc_parse_heads::specs::UnitCode::braced_items_run, jc_parse_heads::specs::UnitCode::items_until_run))]
pub fn braced_items(
    alloc: Global,
    tokens: &[Token],
    height: u32,
) -> Result<Found<'_, Items<Stmt>>, Halt>
    requires { length tokens.now < 2 ^ 32 }
    ensures { Gives result (braced_items_run height tokens.now) }
{
    let open = sign(Sign::LeftBrace, tokens)?;
    reaching(open.left, items_until(alloc, open.rest, height))
}

/// A block.
#[cycle(units)]
#[inline(never)]
fn block(alloc: Global, tokens: &[Token], height: u32) -> Result<Found<'_, Stmt>, Halt>
    requires { length tokens.now < 2 ^ 32 }
    ensures { Gives result (block_run exprs height (levels exprs height) tokens.now) }
{
    let at = sign_at(Sign::LeftBrace, tokens)?;
    let rest = at.rest;
    block_of(at, items_until(alloc, rest, height))
}

/// A `while`.
#[cycle(units)]
#[inline(never)]
fn while_at(alloc: Global, tokens: &[Token], height: u32) -> Result<Found<'_, Stmt>, Halt>
    requires { length tokens.now < 2 ^ 32 }
    ensures { Gives result (while_run exprs height (levels exprs height) tokens.now) }
{
    let test = roomy_tested(alloc, Key::While, tokens, height)?;
    let rest = test.rest;
    while_of(test, boxed(alloc, body_within(alloc, rest, height)))
}

/// A `do`.
#[cycle(units)]
#[inline(never)]
#[tactic(auto, using(crate::proofs::Tails::do_none))]
fn do_at(alloc: Global, tokens: &[Token], height: u32) -> Result<Found<'_, Stmt>, Halt>
    requires { length tokens.now < 2 ^ 32 }
    ensures { Gives result (do_run exprs height (levels exprs height) tokens.now) }
{
    if height == 0 {
        return Err(Halt::Stopped(tokens.len()));
    }
    let at = word_at(Key::Do, tokens)?;
    let body = reaching(at.left, boxed(alloc, body_within(alloc, at.rest, height)))?;
    let rest = body.rest;
    do_of(at.value, body, do_test(alloc, rest, height))
}

/// A `for`.
#[cycle(units)]
#[inline(never)]
fn for_at(alloc: Global, tokens: &[Token], height: u32) -> Result<Found<'_, Stmt>, Halt>
    requires { length tokens.now < 2 ^ 32 }
    ensures { Gives result (for_run exprs height (levels exprs height) tokens.now) }
{
    let opening = for_opening(alloc, tokens, height)?;
    let rest = opening.rest;
    for_of(opening, boxed(alloc, body_within(alloc, rest, height)))
}

/// A label and the statement behind it.
#[cycle(units)]
fn labeled(alloc: Global, tokens: &[Token], height: u32) -> Result<Found<'_, Stmt>, Halt>
    requires { length tokens.now < 2 ^ 32 }
    ensures { Gives result (as_new labeled_made (label_run (levels exprs height)) tokens.now) }
{
    let label = named_label(alloc, tokens)?;
    let rest = label.rest;
    labeled_of(label, boxed(alloc, body_within(alloc, rest, height)))
}

/// A part of a switch.
#[cycle(units)]
#[inline(never)]
fn group(alloc: Global, tokens: &[Token], height: u32) -> Result<Found<'_, Clause>, Halt>
    requires { length tokens.now < 2 ^ 32 }
    ensures { Gives result (case_run exprs height (levels exprs height) tokens.now) }
{
    let label = label(alloc, tokens, height)?;
    let rest = label.rest;
    clause_of(label, some(case_items(alloc, rest, height)))
}

/// The parts of a switch, as many as stand there.
#[cycle(units)]
fn groups(
    alloc: Global,
    tokens: &[Token],
    height: u32,
) -> Result<Found<'_, Items<Clause>>, WantOfMemory>
    requires { length tokens.now < 2 ^ 32 }
    ensures { IfOk result (λ f. Is f (any_number (case_run exprs height (levels exprs height)) tokens.now)) }
{
    many(
        alloc,
        tokens,
        |ts|
            requires { length ts.now < 2 ^ 32 }
            ensures { Gives result (case_run exprs height (levels exprs height) ts.now) }
        { group(alloc, ts, height) },
    )
}

/// The parts of a switch, between braces.
#[cycle(units)]
#[tactic(auto, unfolding(jc_parse_heads::specs::UnitCode::braced_groups_run))]
fn braced_groups(
    alloc: Global,
    tokens: &[Token],
    height: u32,
) -> Result<Found<'_, Items<Clause>>, Halt>
    requires { length tokens.now < 2 ^ 32 }
    ensures { Gives result (braced_groups_run height tokens.now) }
{
    let open = sign(Sign::LeftBrace, tokens)?;
    let groups = groups(alloc, open.rest, height)?;
    reaching(open.left, closed(Sign::RightBrace, groups))
}

/// A `switch`.
#[cycle(units)]
#[inline(never)]
fn switch_at(alloc: Global, tokens: &[Token], height: u32) -> Result<Found<'_, Stmt>, Halt>
    requires { length tokens.now < 2 ^ 32 }
    ensures { Gives result (switch_run exprs height (levels exprs height) tokens.now) }
{
    let test = roomy_tested(alloc, Key::Switch, tokens, height)?;
    let rest = test.rest;
    switch_of(test, braced_groups(alloc, rest, height))
}

/// A `finally`.
#[cycle(units)]
#[inline(never)]
fn finally_at(alloc: Global, tokens: &[Token], height: u32) -> Result<Found<'_, Clause>, Halt>
    requires { length tokens.now < 2 ^ 32 }
    ensures { Gives result (finally_run exprs height (levels exprs height) tokens.now) }
{
    let opening = finally_opening(tokens)?;
    let rest = opening.rest;
    clause_of(opening, braced_items(alloc, rest, height))
}

/// A catch.
#[cycle(units)]
#[inline(never)]
fn catch_at(alloc: Global, tokens: &[Token], height: u32) -> Result<Found<'_, Clause>, Halt>
    requires { length tokens.now < 2 ^ 32 }
    ensures { Gives result (catch_run exprs height (levels exprs height) tokens.now) }
{
    let opening = catch_opening(alloc, tokens, height)?;
    let rest = opening.rest;
    clause_of(opening, braced_items(alloc, rest, height))
}

/// Catches, as many as stand there.
#[cycle(units)]
#[inline(never)]
fn catches(
    alloc: Global,
    tokens: &[Token],
    height: u32,
) -> Result<Found<'_, Items<Clause>>, WantOfMemory>
    requires { length tokens.now < 2 ^ 32 }
    ensures read { IfOk result (λ f. Is f (any_number (catch_run exprs height (levels exprs height)) tokens.now)) }
    ensures shorter { IfOk result (λ f. length f.rest.now ≤ length tokens.now) }
{
    many(
        alloc,
        tokens,
        |ts|
            requires { length ts.now < 2 ^ 32 }
            ensures { Gives result (catch_run exprs height (levels exprs height) ts.now) }
        { catch_at(alloc, ts, height) },
    )
}

/// Catches, and a `finally` or none.
#[cycle(units)]
#[inline(never)]
fn clauses(alloc: Global, tokens: &[Token], height: u32) -> Result<Found<'_, Items<Clause>>, Halt>
    requires { length tokens.now < 2 ^ 32 }
    ensures { Gives result (clauses_run exprs height (levels exprs height) tokens.now) }
{
    let catches = catches(alloc, tokens, height)?;
    let rest = catches.rest;
    with_last(catches, finally_at(alloc, rest, height))
}

/// What stands behind a block of a `try` without resources: a catch or a `finally` at least.
#[cycle(units)]
#[inline(never)]
#[tactic(auto, using(crate::proofs::Tails::some_clauses_last))]
fn some_clauses(
    alloc: Global,
    tokens: &[Token],
    height: u32,
) -> Result<Found<'_, Items<Clause>>, Halt>
    requires { length tokens.now < 2 ^ 32 }
    ensures { Gives result (some_clauses_run exprs height (levels exprs height) tokens.now) }
{
    if !word_stands(Key::Catch, tokens) {
        return single(alloc, finally_at(alloc, tokens, height));
    }
    let catches = some_catches(alloc, tokens, height)?;
    let rest = catches.rest;
    with_last(catches, finally_at(alloc, rest, height))
}

/// One catch or more.
#[cycle(units)]
#[inline(never)]
fn some_catches(
    alloc: Global,
    tokens: &[Token],
    height: u32,
) -> Result<Found<'_, Items<Clause>>, Halt>
    requires { length tokens.now < 2 ^ 32 }
    ensures read { Gives result (some_catches_run height tokens.now) }
    ensures shorter { IfOk result (λ f. length f.rest.now ≤ length tokens.now) }
{
    let first = catch_at(alloc, tokens, height)?;
    Ok(row(
        alloc,
        first,
        |ts|
            requires { length ts.now < 2 ^ 32 }
            ensures { Gives result (catch_run exprs height (levels exprs height) ts.now) }
        { catch_at(alloc, ts, height) },
    )?)
}

/// A block, and what stands behind that of a `try` with resources.
#[cycle(units)]
#[inline(never)]
fn guarded(alloc: Global, tokens: &[Token], height: u32) -> Result<Found<'_, Guarded>, Halt>
    requires { length tokens.now < 2 ^ 32 }
    ensures { Gives result (guarded_run height tokens.now) }
{
    let items = braced_items(alloc, tokens, height)?;
    let rest = items.rest;
    guarded_of(items, clauses(alloc, rest, height))
}

/// A block, and what stands behind that of a `try` without resources.
#[cycle(units)]
#[inline(never)]
fn plain_guarded(alloc: Global, tokens: &[Token], height: u32) -> Result<Found<'_, Guarded>, Halt>
    requires { length tokens.now < 2 ^ 32 }
    ensures { Gives result (plain_guarded_run height tokens.now) }
{
    let items = braced_items(alloc, tokens, height)?;
    let rest = items.rest;
    guarded_of(items, some_clauses(alloc, rest, height))
}

/// A `try` behind its keyword, with resources.
#[cycle(units)]
#[inline(never)]
fn try_with(alloc: Global, at: u32, tokens: &[Token], height: u32) -> Result<Found<'_, Stmt>, Halt>
    requires { length tokens.now < 2 ^ 32 }
    ensures { Gives result (as_new (with_node at) (in_turn (roomy_resources_run height) (guarded_run height)) tokens.now) }
{
    let resources = resources(alloc, tokens, height)?;
    let rest = resources.rest;
    try_with_of(at, resources, guarded(alloc, rest, height))
}

/// A `try`.
#[cycle(units)]
#[inline(never)]
fn try_at(alloc: Global, tokens: &[Token], height: u32) -> Result<Found<'_, Stmt>, Halt>
    requires { length tokens.now < 2 ^ 32 }
    ensures { Gives result (try_run exprs height (levels exprs height) tokens.now) }
{
    let at = word_at(Key::Try, tokens)?;
    let rest = at.rest;
    if sign_stands(Sign::LeftParen, rest) {
        return reaching(at.left, try_with(alloc, at.value, rest, height));
    }
    try_of(at, plain_guarded(alloc, rest, height))
}

/// A label or an effect.
#[cycle(units)]
#[inline(never)]
#[tactic(auto, using(crate::proofs::Tails::plain_none, crate::proofs::Tails::plain_label, crate::proofs::Tails::plain_effect))]
fn plain(alloc: Global, tokens: &[Token], height: u32) -> Result<Found<'_, Stmt>, Halt>
    requires { length tokens.now < 2 ^ 32 }
    ensures { Gives result (plain_run exprs height (levels exprs height) tokens.now) }
{
    if height == 0 {
        return Err(Halt::Stopped(tokens.len()));
    }
    if label_stands(tokens) {
        return labeled(alloc, tokens, height);
    }
    behind_name(tokens, ended_effect(alloc, tokens, height))
}

/// An arm of an `if`.
#[cycle(units)]
#[inline(never)]
fn arm(alloc: Global, tokens: &[Token], height: u32) -> Result<Found<'_, Clause>, Halt>
    requires { length tokens.now < 2 ^ 32 }
    ensures { Gives result (arm_run exprs height (levels exprs height) tokens.now) }
{
    let test = tested(alloc, Key::If, tokens, height)?;
    let rest = test.rest;
    arm_of(test, single(alloc, body_within(alloc, rest, height)))
}

/// An `else` and what stands behind it.
#[cycle(units)]
#[inline(never)]
#[tactic(auto, using(crate::proofs::Tails::branch_arm, crate::proofs::Tails::branch_last))]
fn branch(alloc: Global, tokens: &[Token], height: u32) -> Result<Found<'_, Branch>, Halt>
    requires { length tokens.now < 2 ^ 32 }
    ensures { Gives result (branch_once_run height tokens.now) }
{
    let key = word(Key::Else, tokens)?;
    if word_stands(Key::If, key.rest) {
        return reaching(key.left, arm_branch(arm(alloc, key.rest, height)));
    }
    reaching(key.left, last_branch(other_within(alloc, key.rest, height)))
}

/// What stands behind the first arm of an `if`.
#[cycle(units)]
#[inline(never)]
fn arms<'a>(alloc: Global, first: Found<'a, Clause>, height: u32) -> Result<Found<'a, Stmt>, Halt>
    requires { length first.rest.now < 2 ^ 32 }
    ensures { Gives result (noting first.entry.left (arms_run height first.entry.value first.entry.rest.now)) }
{
    let mut open = is_open(&first.value);
    let mut rest = first.rest;
    let mut left = first.left;
    let mut arms = pushed(Items::new(alloc), first.value)?;
    'arms: loop {
        if open {
            return Ok(if_of(alloc, arms, rest, left.min(rest.len())));
        }
        match branch(alloc, rest, height) {
            Ok(found) => {
                let Found {
                    value,
                    rest: after,
                    left: reach,
                } = found;
                match value {
                    Branch::Arm(arm) => {
                        open = is_open(&arm);
                        arms = pushed(arms, arm)?;
                        left = left.min(reach);
                        rest = after;
                    }
                    Branch::Last(last) => {
                        return if_else_of(alloc, arms, last, after, left.min(reach));
                    }
                }
            }
            Err(Halt::Stopped(reach)) => {
                return Ok(if_of(alloc, arms, rest, left.min(reach)));
            }
            Err(Halt::WantOfMemory) => return Err(without(arms, Halt::WantOfMemory)),
        }
    }
}

/// An `if`.
#[cycle(units)]
#[tactic(auto, using(crate::proofs::Tails::if_none, crate::proofs::Tails::if_is))]
pub fn if_at(alloc: Global, tokens: &[Token], height: u32) -> Result<Found<'_, Stmt>, Halt>
    requires { length tokens.now < 2 ^ 32 }
    ensures { Gives result (if_run exprs height (levels exprs height) tokens.now) }
{
    if height == 0 {
        return Err(Halt::Stopped(tokens.len()));
    }
    let first = arm(alloc, tokens, height)?;
    arms(alloc, first, height)
}

/// A label, variables or an effect.
#[cycle(units)]
#[tactic(auto, using(crate::proofs::Tails::word_none, crate::proofs::Tails::word_label, crate::proofs::Tails::word_other))]
pub fn worded(alloc: Global, tokens: &[Token], height: u32) -> Result<Found<'_, Stmt>, Halt>
    requires { length tokens.now < 2 ^ 32 }
    ensures { Gives result (word_run exprs height (levels exprs height) tokens.now) }
{
    if height == 0 {
        return Err(Halt::Stopped(tokens.len()));
    }
    if label_stands(tokens) {
        return labeled(alloc, tokens, height);
    }
    behind_name(tokens, local_or_effect(alloc, tokens, height))
}

/// A statement of one keyword, where it is none of the first ones.
#[cycle(units)]
#[tactic(auto, using(crate::proofs::Contextual::keyed_for, crate::proofs::Contextual::keyed_switch, crate::proofs::Contextual::keyed_return, crate::proofs::Contextual::keyed_break, crate::proofs::Contextual::keyed_continue, crate::proofs::Contextual::keyed_throw, crate::proofs::Contextual::keyed_try))]
fn keyed(alloc: Global, tokens: &[Token], height: u32) -> Result<Found<'_, Stmt>, Halt>
    requires { length tokens.now < 2 ^ 32 }
    ensures { Gives result (keyed_run height tokens.now) }
{
    if word_stands(Key::For, tokens) {
        return for_at(alloc, tokens, height);
    }
    if word_stands(Key::Switch, tokens) {
        return switch_at(alloc, tokens, height);
    }
    if word_stands(Key::Return, tokens) {
        return return_at(alloc, tokens, height);
    }
    if word_stands(Key::Break, tokens) {
        return break_at(alloc, tokens, height);
    }
    if word_stands(Key::Continue, tokens) {
        return continue_at(alloc, tokens, height);
    }
    if word_stands(Key::Throw, tokens) {
        return throw_at(alloc, tokens, height);
    }
    try_at(alloc, tokens, height)
}

/// A block, a semicolon, or a statement of one keyword.
#[cycle(units)]
#[tactic(auto, using(crate::proofs::Contextual::simple_block, crate::proofs::Contextual::simple_empty, crate::proofs::Contextual::simple_while, crate::proofs::Contextual::simple_do, crate::proofs::Contextual::simple_keyed))]
pub fn simple(alloc: Global, tokens: &[Token], height: u32) -> Result<Found<'_, Stmt>, Halt>
    requires { length tokens.now < 2 ^ 32 }
    ensures { Gives result (simply_run height tokens.now) }
{
    if sign_stands(Sign::LeftBrace, tokens) {
        return block(alloc, tokens, height);
    }
    if sign_stands(Sign::Semicolon, tokens) {
        return empty(tokens, height);
    }
    if word_stands(Key::While, tokens) {
        return while_at(alloc, tokens, height);
    }
    if word_stands(Key::Do, tokens) {
        return do_at(alloc, tokens, height);
    }
    keyed(alloc, tokens, height)
}

/// A statement as a body.
#[cycle(units)]
#[tactic(auto, using(crate::proofs::Contextual::body_if, crate::proofs::Contextual::body_other))]
fn body_at(alloc: Global, tokens: &[Token], height: u32) -> Result<Found<'_, Stmt>, Halt>
    requires { length tokens.now < 2 ^ 32 }
    ensures { Gives result (body_run exprs height (levels exprs height) tokens.now) }
{
    if word_stands(Key::If, tokens) {
        return if_at(alloc, tokens, height);
    }
    other_at(alloc, tokens, height)
}

/// A statement behind an `else`: no `if`.
#[cycle(units)]
#[tactic(auto, using(crate::proofs::Contextual::other_simple, crate::proofs::Contextual::other_plain))]
fn other_at(alloc: Global, tokens: &[Token], height: u32) -> Result<Found<'_, Stmt>, Halt>
    requires { length tokens.now < 2 ^ 32 }
    ensures { Gives result (other_run exprs height (levels exprs height) tokens.now) }
{
    if statement_stands(tokens) {
        return simple(alloc, tokens, height);
    }
    plain(alloc, tokens, height)
}

/// A statement behind a label of a switch.
#[cycle(units)]
#[tactic(auto, using(crate::proofs::Contextual::case_if, crate::proofs::Contextual::case_simple, crate::proofs::Contextual::case_local, crate::proofs::Contextual::case_word))]
fn case_item_at(alloc: Global, tokens: &[Token], height: u32) -> Result<Found<'_, Stmt>, Halt>
    requires { length tokens.now < 2 ^ 32 }
    ensures { Gives result (case_item_run exprs height (levels exprs height) tokens.now) }
{
    if word_stands(Key::If, tokens) {
        return if_at(alloc, tokens, height);
    }
    if statement_stands(tokens) {
        return simple(alloc, tokens, height);
    }
    if modifier_stands(tokens) {
        return local(alloc, tokens, height);
    }
    worded(alloc, tokens, height)
}
