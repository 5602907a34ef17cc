//! A small program, read token by token.
// A program from its tokens.
ghost use Rattle.std.specs.Prelude.{◌≡◌, ◌≤◌, [], ◌∷◌, ◌++◌, IfOk, OnOk, MatchOption, slice_get, true};
ghost use Rattle.jc_small.specs.Small.{IsNoProgram, IsProgram, head, kinds, write_rest};
ghost use Rattle.jc_small.specs.Parse.{number_of, by_lexeme, moved, done_by, now_by, run};

use crate::fixed::{Fixed, is};
use jc_lexer::{Token, TokenKind};
use jc_rules::{Items, WantOfMemory};
use std::alloc::Global;
use std::mem;

/// The sums of the writes of a program.
pub type Program = Items<Items<u32>>;

/// Where a reader of a program stands.
#[derive(Clone, Copy, Debug, PartialEq, Eq)]
pub enum Point {
    Head(u8),
    Statement,
    Write(u8),
    Number,
    AfterNumber,
    Semicolon,
    LastBrace,
    End,
}

/// What a token adds to the program.
#[derive(Clone, Copy, Debug, PartialEq, Eq)]
pub enum Effect {
    Nothing,
    Add(u32),
    Close,
}

#[derive(Clone, Copy, Debug, PartialEq, Eq)]
pub struct Moved {
    pub point: Point,
    pub effect: Effect,
}

const MAX_INT: u64 = 2147483647;

// The int that a decimal number without L is.
fn number(kind: &TokenKind) -> Option<u32>
    ensures { result ≡ number_of kind.now }
{
    match kind {
        TokenKind::Number {
            value,
            long: false,
            decimal: true,
        } if *value <= MAX_INT => Some(*value as u32),
        _ => None,
    }
}

fn head_lexeme(k: u8) -> Option<Fixed>
    ensures { result ≡ slice_get head k }
{
    Some(match k {
        0 => Fixed::Class,
        1 => Fixed::MainClass,
        2 | 13 => Fixed::LeftBrace,
        3 => Fixed::Public,
        4 => Fixed::Static,
        5 => Fixed::Void,
        6 => Fixed::MainMethod,
        7 => Fixed::LeftParen,
        8 => Fixed::StringClass,
        9 => Fixed::LeftBracket,
        10 => Fixed::RightBracket,
        11 => Fixed::Args,
        12 => Fixed::RightParen,
        _ => return None,
    })
}

fn write_lexeme(k: u8) -> Option<Fixed>
    ensures { result ≡ slice_get write_rest k }
{
    Some(match k {
        0 | 2 => Fixed::Dot,
        1 => Fixed::Out,
        3 => Fixed::Write,
        4 => Fixed::LeftParen,
        _ => return None,
    })
}

fn to(point: Point, effect: Effect) -> Option<Moved>
    ensures { result ≡ Some (record { point = point; effect = effect }) }
{
    Some(Moved { point, effect })
}

fn by_lexeme(fixed: Option<Fixed>, kind: &TokenKind, point: Point) -> Option<Moved>
    ensures { result ≡ by_lexeme fixed kind.now point }
{
    match fixed {
        Some(fixed) if is(fixed, kind) => to(point, Effect::Nothing),
        _ => None,
    }
}

// The point and the effect behind a token.
#[tactic(auto, unfolding(crate::specs::Parse::moved))]
fn next_point(point: Point, kind: &TokenKind) -> Option<Moved>
    ensures { result ≡ moved point kind.now }
{
    match point {
        Point::Head(k) => {
            let wanted = head_lexeme(k)?;
            let next = if k == 13 {
                Point::Statement
            } else {
                Point::Head(k + 1)
            };
            by_lexeme(Some(wanted), kind, next)
        }
        Point::Statement => {
            if is(Fixed::System, kind) {
                to(Point::Write(0), Effect::Nothing)
            } else if is(Fixed::RightBrace, kind) {
                to(Point::LastBrace, Effect::Nothing)
            } else {
                None
            }
        }
        Point::Write(k) => {
            let wanted = write_lexeme(k)?;
            let next = if k == 4 {
                Point::Number
            } else {
                Point::Write(k + 1)
            };
            by_lexeme(Some(wanted), kind, next)
        }
        Point::Number => to(Point::AfterNumber, Effect::Add(number(kind)?)),
        Point::AfterNumber => {
            if is(Fixed::Plus, kind) {
                to(Point::Number, Effect::Nothing)
            } else if is(Fixed::RightParen, kind) {
                to(Point::Semicolon, Effect::Nothing)
            } else {
                None
            }
        }
        Point::Semicolon => {
            if is(Fixed::Semicolon, kind) {
                to(Point::Statement, Effect::Close)
            } else {
                None
            }
        }
        Point::LastBrace => {
            if is(Fixed::RightBrace, kind) {
                to(Point::End, Effect::Nothing)
            } else {
                None
            }
        }
        Point::End => None,
    }
}

// Applies an effect to the program and the open sum.
fn apply(
    alloc: Global,
    effect: Effect,
    done: &mut Program,
    now: &mut Items<u32>,
) -> Result<(), WantOfMemory>
    ensures { OnOk result ((done.new ≡ done_by effect done.old now.old) × (now.new ≡ now_by effect now.old)) }
{
    match effect {
        Effect::Nothing => Ok(()),
        Effect::Add(n) => now.push(n),
        Effect::Close => {
            let sum = mem::replace(now, Items::new(alloc));
            done.push(sum)
        }
    }
}

// The program of the tokens.
#[tactic(auto, unfolding(crate::specs::Parse::run))]
fn read_program(alloc: Global, tokens: &[Token]) -> Result<Option<Program>, WantOfMemory>
    ensures { IfOk result (λ p. p ≡ run (kinds tokens.now) (Point.Head 0) [] []) }
{
    let mut point = Point::Head(0);
    let mut done = Items::new(alloc);
    let mut now = Items::new(alloc);
    for t in tokens {
        match next_point(point, &t.kind) {
            Some(moved) => {
                apply(alloc, moved.effect, &mut done, &mut now)?;
                point = moved.point;
            }
            None => return Ok(None),
        }
    }
    match point {
        Point::End => Ok(Some(done)),
        _ => Ok(None),
    }
}

const MOST_TOKENS: usize = 4096;

/// The program that tokens are, if they are one.
pub fn parse(alloc: Global, tokens: &[Token]) -> Result<Option<Program>, WantOfMemory>
    ensures { IfOk result (λ p. MatchOption p (IsNoProgram tokens.now) (λ program. IsProgram tokens.now program)) }
{
    if tokens.len() > MOST_TOKENS {
        return Ok(None);
    }
    read_program(alloc, tokens)
}
