//! Shows the expression, or with `--type` the type, that each file begins with: its tree in words, the token behind it and the reach;
//! or the token of the syntax error, or the lexical rule that the file breaks and at which offset. The repository's own checks compare
//! that with trees by hand, and with what `javac` takes.
#![tactic(auto)]

ghost use Rattle.std.specs.Prelude.{◌<◌, ◌^◌, length};

mod expressions;
mod types;
mod words;

use crate::expressions::put_expr;
use crate::types::put_type;
use crate::words::put_number;
use jc_lexer::{Token, tokens};
use jc_outside::{FolderShelf, Shelf};
use jc_parse_expr::{ExprFound, expr_at};
use jc_parse_type::type_at;
use jc_rules::Stop;
use jc_tree::ParseFault;
use std::alloc::{AllocError, Global};
use std::{env, io};

/// The most bytes that a source may have.
const MOST_BYTES: usize = 16_777_216;
/// The most tokens that are read.
const MOST_TOKENS: usize = 4_294_967_295;

/// Where a tree ends, and how far it was read.
fn put_places(alloc: Global, out: &mut String, next: u32, reach: u32) -> Result<(), AllocError> {
    out.push_str(" next ")?;
    put_number(alloc, out, u64::from(next))?;
    out.push_str(" reach ")?;
    put_number(alloc, out, u64::from(reach))
}

fn put_stop(alloc: Global, out: &mut String, stop: &Stop<ParseFault>) -> Result<(), AllocError> {
    match stop {
        Stop::Refused(ParseFault::Syntax { token }) => {
            out.push_str("syntax error at ")?;
            put_number(alloc, out, u64::from(*token))
        }
        Stop::Refused(ParseFault::LeftOut { rule, token }) => {
            put_number(alloc, out, u64::from(rule.number()))?;
            out.push_str(" at ")?;
            put_number(alloc, out, u64::from(*token))
        }
        Stop::WantOfMemory => out.push_str("out of memory"),
    }
}

fn put_type_of(alloc: Global, out: &mut String, tokens: &[Token]) -> Result<(), AllocError>
    requires { length tokens.now < 2 ^ 32 }
{
    match type_at(alloc, tokens, 0) {
        Ok(found) => {
            put_type(alloc, out, &found.tree)?;
            put_places(alloc, out, found.next, found.reach)
        }
        Err(stop) => put_stop(alloc, out, &stop),
    }
}

/// A tree and its places.
fn put_found(alloc: Global, out: &mut String, found: &ExprFound) -> Result<(), AllocError> {
    put_expr(alloc, out, &found.tree)?;
    put_places(alloc, out, found.next, found.reach)
}

fn put_expr_of(alloc: Global, out: &mut String, tokens: &[Token]) -> Result<(), AllocError>
    requires { length tokens.now < 2 ^ 32 }
{
    match expr_at(alloc, tokens, 0) {
        Ok(found) => put_found(alloc, out, &found),
        Err(stop) => put_stop(alloc, out, &stop),
    }
}

fn put_source(
    alloc: Global,
    out: &mut String,
    bytes: &[u8],
    is_type: bool,
) -> Result<(), AllocError> {
    if bytes.len() > MOST_BYTES {
        return out.push_str("101 at 0");
    }
    match tokens(alloc, bytes) {
        Ok(list) => {
            if list.len() > MOST_TOKENS {
                out.push_str("too many tokens")
            } else if is_type {
                put_type_of(alloc, out, list.slice())
            } else {
                put_expr_of(alloc, out, list.slice())
            }
        }
        Err(Stop::Refused(fault)) => {
            put_number(alloc, out, u64::from(fault.rule()))?;
            out.push_str(" at ")?;
            put_number(alloc, out, u64::from(fault.at()))
        }
        Err(Stop::WantOfMemory) => out.push_str("out of memory"),
    }
}

fn main(rt: HostRuntime) -> io::Result<()> {
    let alloc = rt.alloc();
    let mut shelf = FolderShelf::new(&rt);
    let mut out = String::new(alloc);
    let mut is_type = false;
    for (n, name) in env::args(&rt)?.enumerate() {
        if n > 0 && name.as_str() == "--type" {
            is_type = true;
        } else if n > 0 {
            out.push_str(name.as_str())?;
            out.push_str(": ")?;
            let mut bytes = Vec::new(alloc);
            match shelf.read(name.as_str(), &mut bytes) {
                Ok(()) => put_source(alloc, &mut out, &bytes, is_type)?,
                Err(_) => out.push_str("cannot be read")?,
            }
            out.push_str("\n")?;
        }
    }
    print!(rt; "{out}")?;
    Ok(())
}
