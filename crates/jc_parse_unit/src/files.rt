//! Source files, as far as one stands there (JLS 7.3).
ghost use Rattle.std.specs.Prelude.{◌<◌, ◌≤◌, ◌^◌, length, IfOk};
ghost use Rattle.jc_reading.specs.Giving.{Gives, Is};
ghost use Rattle.jc_lexer.specs.declared.token.Sign.TheVariants as sign_of;
ghost use Rattle.jc_tree.specs.declared.statement.TopLevel.TheVariants as top_level_of;
ghost use Rattle.jc_reading.specs.Kinds.{sign_code};
ghost use Rattle.jc_reading.specs.Reading.{any_number, as_new, at_kind, perhaps};
ghost use Rattle.jc_expr_laws.specs.ExprReading.{exprs};
ghost use Rattle.jc_unit_laws.specs.MemberReading.{file_run, import_run, package_run, top_run};
ghost use Rattle.jc_parse_heads.specs.UnitCode.{declared_top_run};

use crate::members::rest_at;
use jc_lexer::{Sign, Token};
use jc_parse_heads::sign_stands;
use jc_parse_nodes::top_of;
use jc_parse_parts::{import, many, modifiers_within, package, sign_at};
use jc_reading::{Found, Halt, without};
use jc_rules::{Items, WantOfMemory};
use jc_tree::{Import, Package, SourceFile, TopLevel};
use std::alloc::Global;

/// Declarations of a file have at most this height: one less than a file.
const HEIGHT: u32 = 198;

/// A semicolon alone.
fn semicolon(tokens: &[Token]) -> Result<Found<'_, TopLevel>, Halt>
    ensures { Gives result (as_new top_level_of.Semicolon (at_kind (sign_code sign_of.Semicolon)) tokens.now) }
{
    let at = sign_at(Sign::Semicolon, tokens)?;
    Ok(Found {
        value: TopLevel::Semicolon { at: at.value },
        rest: at.rest,
        left: at.left,
    })
}

/// A declaration with its modifiers.
fn declared(alloc: Global, tokens: &[Token]) -> Result<Found<'_, TopLevel>, Halt>
    requires { length tokens.now < 2 ^ 32 }
    ensures { Gives result (declared_top_run tokens.now) }
{
    let modifiers = modifiers_within(alloc, tokens, HEIGHT)?;
    let rest = modifiers.rest;
    top_of(modifiers, rest_at(alloc, rest, HEIGHT))
}

/// A declaration, or a semicolon.
#[tactic(auto, using(crate::proofs::Filing::top_semicolon, crate::proofs::Filing::top_declared))]
fn top(alloc: Global, tokens: &[Token]) -> Result<Found<'_, TopLevel>, Halt>
    requires { length tokens.now < 2 ^ 32 }
    ensures { Gives result (top_run exprs 199 tokens.now) }
{
    if sign_stands(Sign::Semicolon, tokens) {
        return semicolon(tokens);
    }
    declared(alloc, tokens)
}

/// A package, or none.
fn some_package(alloc: Global, tokens: &[Token]) -> Result<Found<'_, Option<Package>>, WantOfMemory>
    ensures read { IfOk result (λ f. Is f (perhaps package_run tokens.now)) }
    ensures shorter { IfOk result (λ f. length f.rest.now ≤ length tokens.now) }
{
    match package(alloc, tokens) {
        Ok(found) => Ok(Found {
            value: Some(found.value),
            rest: found.rest,
            left: found.left,
        }),
        Err(Halt::Stopped(left)) => Ok(Found {
            value: None,
            rest: tokens,
            left,
        }),
        Err(Halt::WantOfMemory) => Err(WantOfMemory),
    }
}

/// Imports, as many as stand there.
fn imports(alloc: Global, tokens: &[Token]) -> Result<Found<'_, Items<Import>>, WantOfMemory>
    ensures read { IfOk result (λ f. Is f (any_number import_run tokens.now)) }
    ensures shorter { IfOk result (λ f. length f.rest.now ≤ length tokens.now) }
{
    many(alloc, tokens, |ts| import(alloc, ts))
}

/// Declarations and semicolons, as many as stand there.
fn tops(alloc: Global, tokens: &[Token]) -> Result<Found<'_, Items<TopLevel>>, WantOfMemory>
    requires { length tokens.now < 2 ^ 32 }
    ensures { IfOk result (λ f. Is f (any_number (top_run exprs 199) tokens.now)) }
{
    many(
        alloc,
        tokens,
        |ts|
            requires { length ts.now < 2 ^ 32 }
            ensures { Gives result (top_run exprs 199 ts.now) }
        { top(alloc, ts) },
    )
}

/// A source file whose declarations have at most 199 heights.
#[tactic(auto, unfolding(jc_unit_laws::specs::MemberReading::file_run))]
pub fn file(alloc: Global, tokens: &[Token]) -> Result<Found<'_, SourceFile>, WantOfMemory>
    requires { length tokens.now < 2 ^ 32 }
    ensures { IfOk result (λ f. Is f (file_run exprs 199 tokens.now)) }
{
    let package = some_package(alloc, tokens)?;
    let Ok(imports) = imports(alloc, package.rest) else {
        return Err(without(package, WantOfMemory));
    };
    let Ok(types) = tops(alloc, imports.rest) else {
        return Err(without((package, imports), WantOfMemory));
    };
    Ok(Found {
        value: SourceFile {
            package: package.value,
            imports: imports.value,
            types: types.value,
        },
        rest: types.rest,
        left: package.left.min(imports.left.min(types.left)),
    })
}
