//! Words of a line, and numbers that they spell. A line names the nodes of a body by their numbers, from 0 on.
ghost use Rattle.std.specs.Prelude.{◌<◌, IfOk};

use crate::{Read, Unreadable};
use jc_rules::Stop;
use jc_types::{Op, Primitive};
use std::alloc::{AllocError, Global};

/// The words of a line.
pub fn words<'a>(alloc: Global, line: &'a str, by: char) -> Result<Vec<&'a str>, AllocError> {
    let mut out = Vec::new(alloc);
    for word in line.split(by) {
        if !word.is_empty() {
            out.push(word)?;
        }
    }
    Ok(out)
}

/// The word at a place of a line; an empty one where the line is shorter.
pub fn word<'a>(words: &[&'a str], at: usize) -> &'a str {
    match words.get(at) {
        Some(word) => word,
        None => "",
    }
}

/// A number that a text spells; what isn't a digit is left out.
pub fn number_of(text: &str) -> u64 {
    let mut n: u64 = 0;
    for b in text.as_bytes() {
        if *b >= b'0' && *b <= b'9' {
            n = n.wrapping_mul(10).wrapping_add((*b - b'0') as u64);
        }
    }
    n
}

/// A number with a sign.
pub fn signed_of(text: &str) -> i64 {
    let n = number_of(text).cast_signed();
    if text.starts_with('-') {
        n.wrapping_neg()
    } else {
        n
    }
}

/// The number at a place of a line.
pub fn number(words: &[&str], at: usize) -> u64 {
    number_of(word(words, at))
}

/// A number that is small, as that of a local variable.
pub fn small(words: &[&str], at: usize) -> Read<u32> {
    match u32::try_from(number(words, at)) {
        Ok(n) => Ok(n),
        Err(_) => Err(Stop::Refused(Unreadable)),
    }
}

/// The place of a node that is there: there are `count` of them.
pub fn place(words: &[&str], at: usize, count: usize) -> Read<u32>
    ensures { IfOk result (λ n. n < count) }
{
    let n = small(words, at)?;
    if (n as usize) < count {
        Ok(n)
    } else {
        Err(Stop::Refused(Unreadable))
    }
}

/// The primitive type of a letter.
pub fn primitive(word: &str) -> Option<Primitive> {
    match word {
        "Z" => Some(Primitive::Boolean),
        "B" => Some(Primitive::Byte),
        "S" => Some(Primitive::Short),
        "C" => Some(Primitive::Char),
        "I" => Some(Primitive::Int),
        "J" => Some(Primitive::Long),
        _ => None,
    }
}

/// The primitive type at a place of a line.
pub fn primitive_at(words: &[&str], at: usize) -> Read<Primitive> {
    match primitive(word(words, at)) {
        Some(ty) => Ok(ty),
        None => Err(Stop::Refused(Unreadable)),
    }
}

fn prefix_operator(word: &str) -> Option<Op> {
    match word {
        "!" => Some(Op::Not),
        "p" => Some(Op::Positive),
        "n" => Some(Op::Negative),
        "~" => Some(Op::Complement),
        "++" => Some(Op::Increment),
        "--" => Some(Op::Decrement),
        _ => None,
    }
}

/// The operator at a place of a line; `p` and `n` are signs before an operand.
pub fn operator(words: &[&str], at: usize) -> Read<Op> {
    Ok(match word(words, at) {
        "*" => Op::Times,
        "/" => Op::Divide,
        "%" => Op::Remainder,
        "+" => Op::Plus,
        "-" => Op::Minus,
        "<<" => Op::ShiftLeft,
        ">>" => Op::ShiftRight,
        ">>>" => Op::ShiftRightUnsigned,
        "<" => Op::Less,
        ">" => Op::Greater,
        "<=" => Op::AtMost,
        ">=" => Op::AtLeast,
        "==" => Op::Equal,
        "!=" => Op::NotEqual,
        "&" => Op::And,
        "|" => Op::Or,
        "^" => Op::Xor,
        other => match prefix_operator(other) {
            Some(op) => op,
            None => return Err(Stop::Refused(Unreadable)),
        },
    })
}
