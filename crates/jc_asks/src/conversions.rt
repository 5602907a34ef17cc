//! Conversions in words.
use crate::words::{primitive_word, put_type};
use crate::{Read, Unreadable};
use jc_convert::Converts;
use jc_rules::Stop;
use jc_types::{Constant, Primitive, Step, Table};
use std::alloc::{AllocError, Global};

/// The constant of type int that a word spells, if there is a word.
pub fn constant_of(word: Option<&str>) -> Read<Option<Constant>> {
    match word {
        None => Ok(None),
        Some(digits) => match digits.parse::<i64>() {
            Ok(value) => Ok(Some(Constant::Whole {
                value,
                of: Primitive::Int,
            })),
            Err(_) => Err(Stop::Refused(Unreadable)),
        },
    }
}

/// `No`, `Deep`, or `Yes` with ` unchecked` and the steps of the conversion.
pub fn conversion_words(alloc: Global, table: &Table, found: Converts) -> Read<String> {
    match found {
        Converts::NoConversion => Ok(String::from_str(alloc, "No")?),
        Converts::Deep => Ok(String::from_str(alloc, "Deep")?),
        Converts::Yes(conversion) => {
            let mut out = String::from_str(alloc, "Yes")?;
            out.push_str(if conversion.unchecked {
                " unchecked"
            } else {
                ""
            })?;
            for step in conversion.steps.slice() {
                put_step(alloc, &mut out, table, step)?;
            }
            Ok(out)
        }
    }
}

fn put_step(alloc: Global, out: &mut String, table: &Table, step: &Step) -> Result<(), AllocError> {
    out.push_str(step_word(step))?;
    match step {
        Step::Widen(word) => out.push_str(primitive_word(*word)),
        Step::Narrow(word) => out.push_str(primitive_word(*word)),
        Step::BoxUp => Ok(()),
        Step::Unbox => Ok(()),
        Step::Up(ty) => put_type(alloc, out, table, ty),
        Step::Check(ty) => put_type(alloc, out, table, ty),
    }
}

fn step_word(step: &Step) -> &'static str {
    match step {
        Step::Widen(_) => " widen ",
        Step::Narrow(_) => " narrow ",
        Step::BoxUp => " box",
        Step::Unbox => " unbox",
        Step::Up(_) => " up ",
        Step::Check(_) => " check ",
    }
}
