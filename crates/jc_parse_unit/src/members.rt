//! Declarations, members and statements in blocks (JLS 8, 9, 14.2).
ghost use Rattle.std.specs.Prelude.{◌≡◌, ◌<◌, ◌≤◌, ◌^◌, length, IfOk};
ghost use Rattle.jc_reading.specs.Giving.{Gives, Is};
ghost use Rattle.jc_reading.specs.Reading.{any_number, as_new, at_kind, noting};
ghost use Rattle.jc_expr_laws.specs.ExprReading.{exprs};
ghost use Rattle.jc_unit_laws.specs.MemberReading.{first_run, instance_made, item_run, levels, member_run, moded_item_run, moded_member_run};
ghost use Rattle.jc_parse_heads.specs.UnitCode.{body_made, braced_members_run, coded_member_run, declaration_rest_run, static_run};
ghost use Rattle.jc_parse_heads.specs.MemberCode.{constructor_list_run, finish_from, first_ended_run, first_items_run, first_row_run, method_items_run, super_or_item_run};
ghost use Rattle.jc_parse_nodes.specs.declared.heads.MemberHead.TheVariants as head_of;
ghost use Rattle.jc_lexer.specs.declared.token.Sign.TheVariants as sign_of;
ghost use Rattle.jc_tree.specs.declared.statement.Member.TheVariants as member_of;
ghost use Rattle.jc_reading.specs.Kinds.{sign_code};
ghost use Rattle.jc_unit_laws.specs.UnitReading.{braced_at_run};

use crate::statements::{braced_items, if_at, item_within, items_until, simple, worded};
use jc_lexer::{Key, Sign, Token};
use jc_parse_heads::{
    are_low, behind_static, closed, code_head, declaration_stands, in_some, key_call_stands,
    no_items, no_statements, reach_behind_key, rest_stands, sign_stands, statement_stands,
    static_block_stands, super_call, this_call, typed, word_stands,
};
use jc_parse_nodes::{
    Body, MemberHead, body_of, constructor_end_of, declared_of, headed_of, initialiser_of,
    local_of, method_end_of, nested_of, reaching,
};
use jc_parse_parts::{head_rest_within, many, modifiers_within, row, sign, sign_at, word_at};
use jc_reading::{Found, Halt};
use jc_rules::{Items, WantOfMemory};
use jc_tree::{Member, MethodHead, Modifier, Stmt};
use std::alloc::Global;

/// A declaration behind its modifiers.
#[cycle(units)]
#[tactic(auto, using(crate::proofs::Heighted::rest_none, crate::proofs::Heighted::rest_next))]
pub fn rest_within(alloc: Global, tokens: &[Token], height: u32) -> Result<Found<'_, Body>, Halt>
    requires { length tokens.now < 2 ^ 32 }
    ensures { Gives result (as_new body_made (levels exprs height).rest tokens.now) }
{
    if height == 0 {
        return Err(Halt::Stopped(tokens.len()));
    }
    rest_at(alloc, tokens, height - 1)
}

/// A declaration behind its modifiers, whose members have parts of such a height.
#[cycle(units)]
pub fn rest_at(alloc: Global, tokens: &[Token], height: u32) -> Result<Found<'_, Body>, Halt>
    requires { length tokens.now < 2 ^ 32 }
    ensures { Gives result (declaration_rest_run height tokens.now) }
{
    let head = head_rest_within(alloc, tokens, height)?;
    let rest = head.rest;
    body_of(head, braced_members(alloc, rest, height))
}

/// Members between braces.
#[cycle(units)]
#[tactic(auto, unfolding(jc_parse_heads::specs::UnitCode::braced_members_run))]
fn braced_members(
    alloc: Global,
    tokens: &[Token],
    height: u32,
) -> Result<Found<'_, Items<Member>>, Halt>
    requires { length tokens.now < 2 ^ 32 }
    ensures { Gives result (braced_members_run height tokens.now) }
{
    let open = sign(Sign::LeftBrace, tokens)?;
    let members = members(alloc, open.rest, height)?;
    reaching(open.left, closed(Sign::RightBrace, members))
}

/// Members, as many as stand there.
#[cycle(units)]
fn members(
    alloc: Global,
    tokens: &[Token],
    height: u32,
) -> Result<Found<'_, Items<Member>>, WantOfMemory>
    requires { length tokens.now < 2 ^ 32 }
    ensures { IfOk result (λ f. Is f (any_number (member_run exprs height (levels exprs height)) tokens.now)) }
{
    many(
        alloc,
        tokens,
        |ts|
            requires { length ts.now < 2 ^ 32 }
            ensures { Gives result (member_run exprs height (levels exprs height) ts.now) }
        { member_at(alloc, ts, height) },
    )
}

/// A member.
#[cycle(units)]
#[tactic(auto, using(crate::proofs::Moded::member_semicolon, crate::proofs::Moded::member_block, crate::proofs::Moded::member_static, crate::proofs::Moded::member_moded))]
fn member_at(alloc: Global, tokens: &[Token], height: u32) -> Result<Found<'_, Member>, Halt>
    requires { length tokens.now < 2 ^ 32 }
    ensures { Gives result (member_run exprs height (levels exprs height) tokens.now) }
{
    if sign_stands(Sign::Semicolon, tokens) {
        return semicolon(tokens);
    }
    if sign_stands(Sign::LeftBrace, tokens) {
        return instance_block(alloc, tokens, height);
    }
    if static_block_stands(tokens) {
        return static_block(alloc, tokens, height);
    }
    behind_static(tokens, moded_member(alloc, tokens, height))
}

/// A semicolon alone.
fn semicolon(tokens: &[Token]) -> Result<Found<'_, Member>, Halt>
    ensures { Gives result (as_new member_of.Semicolon (at_kind (sign_code sign_of.Semicolon)) tokens.now) }
{
    let at = sign_at(Sign::Semicolon, tokens)?;
    Ok(Found {
        value: Member::Semicolon { at: at.value },
        rest: at.rest,
        left: at.left,
    })
}

/// A block as a member.
#[cycle(units)]
fn instance_block(alloc: Global, tokens: &[Token], height: u32) -> Result<Found<'_, Member>, Halt>
    requires { length tokens.now < 2 ^ 32 }
    ensures { Gives result (as_new instance_made (braced_at_run (levels exprs height).item) tokens.now) }
{
    let at = sign_at(Sign::LeftBrace, tokens)?;
    let rest = at.rest;
    initialiser_of(false, at, items_until(alloc, rest, height))
}

/// A static block.
#[cycle(units)]
fn static_block(alloc: Global, tokens: &[Token], height: u32) -> Result<Found<'_, Member>, Halt>
    requires { length tokens.now < 2 ^ 32 }
    ensures { Gives result (static_run height tokens.now) }
{
    let at = word_at(Key::Static, tokens)?;
    let rest = at.rest;
    initialiser_of(true, at, braced_items(alloc, rest, height))
}

/// A member with its modifiers.
#[cycle(units)]
fn moded_member(alloc: Global, tokens: &[Token], height: u32) -> Result<Found<'_, Member>, Halt>
    requires { length tokens.now < 2 ^ 32 }
    ensures { Gives result (moded_member_run exprs height (levels exprs height) tokens.now) }
{
    let modifiers = modifiers_within(alloc, tokens, height)?;
    let rest = modifiers.rest;
    if rest_stands(rest) && are_low(modifiers.value.slice(), height) {
        return nested_of(modifiers, rest_within(alloc, rest, height));
    }
    coded_member(alloc, modifiers, height)
}

/// A method, a constructor or fields, behind their modifiers.
#[cycle(units)]
fn coded_member<'a>(
    alloc: Global,
    modifiers: Found<'a, Items<Modifier>>,
    height: u32,
) -> Result<Found<'a, Member>, Halt>
    requires { length modifiers.rest.now < 2 ^ 32 }
    ensures { Gives result (noting modifiers.entry.left (coded_member_run height modifiers.entry.value modifiers.entry.rest.now)) }
{
    let rest = modifiers.rest;
    let head = headed_of(modifiers, code_head(alloc, rest, height))?;
    member_end(alloc, head, height)
}

/// A member whose head was read.
#[cycle(units)]
fn member_end<'a>(
    alloc: Global,
    head: Found<'a, MemberHead>,
    height: u32,
) -> Result<Found<'a, Member>, Halt>
    requires { length head.rest.now < 2 ^ 32 }
    ensures { Gives result (finish_from height head.entry.value head.entry.rest.now head.entry.left) }
{
    let rest = head.rest;
    let left = head.left;
    match head.value {
        MemberHead::Method(value) => method_end(alloc, Found { value, rest, left }, height),
        MemberHead::Constructor(value) => constructor_end(
            alloc,
            Found { value, rest, left },
            height,
        ),
        MemberHead::Fields(vars) => Ok(Found {
            value: Member::Fields(vars),
            rest,
            left,
        }),
    }
}

/// A method whose head was read.
#[cycle(units)]
fn method_end<'a>(
    alloc: Global,
    head: Found<'a, MethodHead>,
    height: u32,
) -> Result<Found<'a, Member>, Halt>
    requires { length head.rest.now < 2 ^ 32 }
    ensures { Gives result (finish_from height (head_of.Method head.entry.value) head.entry.rest.now head.entry.left) }
{
    let rest = head.rest;
    method_end_of(head, method_items(alloc, rest, height))
}

/// A constructor whose head was read.
#[cycle(units)]
fn constructor_end<'a>(
    alloc: Global,
    head: Found<'a, MethodHead>,
    height: u32,
) -> Result<Found<'a, Member>, Halt>
    requires { length head.rest.now < 2 ^ 32 }
    ensures { Gives result (finish_from height (head_of.Constructor head.entry.value) head.entry.rest.now head.entry.left) }
{
    let rest = head.rest;
    constructor_end_of(head, constructor_list(alloc, rest, height))
}

/// The statements of a method, or a semicolon in their place.
#[cycle(units)]
#[tactic(auto, using(jc_parse_heads::proofs::MemberEnds::items_braces, jc_parse_heads::proofs::MemberEnds::items_none))]
fn method_items(
    alloc: Global,
    tokens: &[Token],
    height: u32,
) -> Result<Found<'_, Option<Items<Stmt>>>, Halt>
    requires { length tokens.now < 2 ^ 32 }
    ensures { Gives result (method_items_run height tokens.now) }
{
    if sign_stands(Sign::LeftBrace, tokens) {
        return in_some(braced_items(alloc, tokens, height));
    }
    no_items(tokens)
}

/// The statements of a constructor.
#[cycle(units)]
#[tactic(auto, unfolding(jc_parse_heads::specs::MemberCode::constructor_list_run))]
fn constructor_list(
    alloc: Global,
    tokens: &[Token],
    height: u32,
) -> Result<Found<'_, Items<Stmt>>, Halt>
    requires { length tokens.now < 2 ^ 32 }
    ensures { Gives result (constructor_list_run height tokens.now) }
{
    let open = sign(Sign::LeftBrace, tokens)?;
    reaching(open.left, first_items(alloc, open.rest, height))
}

/// The statements of a constructor, and a right brace.
#[cycle(units)]
#[tactic(auto, using(jc_parse_heads::proofs::MemberEnds::first_closes, jc_parse_heads::proofs::MemberEnds::first_goes))]
fn first_items(alloc: Global, tokens: &[Token], height: u32) -> Result<Found<'_, Items<Stmt>>, Halt>
    requires { length tokens.now < 2 ^ 32 }
    ensures { Gives result (first_items_run height tokens.now) }
{
    if sign_stands(Sign::RightBrace, tokens) {
        return no_statements(alloc, tokens);
    }
    first_ended(alloc, tokens, height)
}

/// One statement or more of a constructor, and a right brace.
#[cycle(units)]
#[tactic(auto, unfolding(jc_parse_heads::specs::MemberCode::first_ended_run))]
fn first_ended(alloc: Global, tokens: &[Token], height: u32) -> Result<Found<'_, Items<Stmt>>, Halt>
    requires { length tokens.now < 2 ^ 32 }
    ensures { Gives result (first_ended_run height tokens.now) }
{
    let items = first_row(alloc, tokens, height)?;
    closed(Sign::RightBrace, items)
}

/// One statement or more of a constructor.
#[cycle(units)]
fn first_row(alloc: Global, tokens: &[Token], height: u32) -> Result<Found<'_, Items<Stmt>>, Halt>
    requires { length tokens.now < 2 ^ 32 }
    ensures { Gives result (first_row_run height tokens.now) }
{
    let first = first_within(alloc, tokens, height)?;
    Ok(row(
        alloc,
        first,
        |ts|
            requires { length ts.now < 2 ^ 32 }
            ensures { Gives result ((levels exprs height).item ts.now) }
        { item_within(alloc, ts, height) },
    )?)
}

/// The first statement of a constructor.
#[cycle(units)]
#[tactic(auto, using(crate::proofs::Heighted::first_none, crate::proofs::Heighted::first_next))]
fn first_within(alloc: Global, tokens: &[Token], height: u32) -> Result<Found<'_, Stmt>, Halt>
    requires { length tokens.now < 2 ^ 32 }
    ensures { Gives result ((levels exprs height).first tokens.now) }
{
    if height == 0 {
        return Err(Halt::Stopped(tokens.len()));
    }
    first_at(alloc, tokens, height - 1)
}

/// The first statement of a constructor, whose parts have such a height.
#[cycle(units)]
#[tactic(auto, using(jc_parse_heads::proofs::MemberEnds::first_this, jc_parse_heads::proofs::MemberEnds::first_other))]
fn first_at(alloc: Global, tokens: &[Token], height: u32) -> Result<Found<'_, Stmt>, Halt>
    requires { length tokens.now < 2 ^ 32 }
    ensures { Gives result (first_run exprs height (levels exprs height) tokens.now) }
{
    if key_call_stands(Key::This, tokens) {
        return this_call(alloc, tokens, height);
    }
    reach_behind_key(Key::This, tokens, super_or_item(alloc, tokens, height))
}

/// A call of a constructor of the superclass, or an item.
#[cycle(units)]
#[tactic(auto, using(jc_parse_heads::proofs::MemberEnds::super_there, jc_parse_heads::proofs::MemberEnds::item_there))]
fn super_or_item(alloc: Global, tokens: &[Token], height: u32) -> Result<Found<'_, Stmt>, Halt>
    requires { length tokens.now < 2 ^ 32 }
    ensures { Gives result (super_or_item_run height tokens.now) }
{
    if key_call_stands(Key::Super, tokens) {
        return super_call(alloc, tokens, height);
    }
    reach_behind_key(Key::Super, tokens, item_at(alloc, tokens, height))
}

/// A declaration or variables, with their modifiers.
#[cycle(units)]
#[inline(never)]
fn moded_item(alloc: Global, tokens: &[Token], height: u32) -> Result<Found<'_, Stmt>, Halt>
    requires { length tokens.now < 2 ^ 32 }
    ensures { Gives result (moded_item_run exprs height (levels exprs height) tokens.now) }
{
    let modifiers = modifiers_within(alloc, tokens, height)?;
    let rest = modifiers.rest;
    if modifiers.value.is_empty() || rest_stands(rest) {
        return declared_of(modifiers, rest_at(alloc, rest, height));
    }
    local_of(modifiers, typed(alloc, rest, height))
}

/// A statement or a declaration in a block.
#[cycle(units)]
#[tactic(auto, using(crate::proofs::Contextual::item_if, crate::proofs::Contextual::item_simple, crate::proofs::Contextual::item_moded, crate::proofs::Contextual::item_word))]
pub fn item_at(alloc: Global, tokens: &[Token], height: u32) -> Result<Found<'_, Stmt>, Halt>
    requires { length tokens.now < 2 ^ 32 }
    ensures { Gives result (item_run exprs height (levels exprs height) tokens.now) }
{
    if word_stands(Key::If, tokens) {
        return if_at(alloc, tokens, height);
    }
    if statement_stands(tokens) {
        return simple(alloc, tokens, height);
    }
    if declaration_stands(tokens) {
        return moded_item(alloc, tokens, height);
    }
    worded(alloc, tokens, height)
}
