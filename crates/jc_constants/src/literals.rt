//! Literals (JLS 3.10).
ghost use Rattle.std.specs.Prelude.{◌≡◌, ◌%◌, ◌^◌, IfOk};
ghost use Rattle.std.specs.Int.{w32, cast_signed};
ghost use Rattle.jc_declares.specs.Constants.{literal_constant};

use jc_rules::{Items, WantOfMemory};
use jc_tree::Literal;
use jc_types::{Constant, Primitive};
use std::alloc::Global;

fn copy_units(alloc: Global, units: &[u16]) -> Result<Items<u16>, WantOfMemory>
    ensures { IfOk result (λ it. it ≡ units.now) }
{
    let mut copy = Items::new(alloc);
    for unit in units {
        copy.push(*unit)?;
    }
    Ok(copy)
}

/// What the bits of a number are as an `int`.
fn as_int(value: u64) -> i64
    ensures { result ≡ cast_signed w32 (value % 2 ^ 32) }
{
    let low = (value % 4_294_967_296) as u32;
    i64::from(low.cast_signed())
}

/// The value of a literal. None for `null`.
pub fn literal_constant(alloc: Global, literal: &Literal) -> Result<Option<Constant>, WantOfMemory>
    ensures { IfOk result (λ it. it ≡ literal_constant literal.now) }
{
    match literal {
        Literal::Number {
            value,
            long: true,
            ..
        } => Ok(Some(Constant::Whole {
            value: value.cast_signed(),
            of: Primitive::Long,
        })),
        Literal::Number {
            value,
            long: false,
            ..
        } => Ok(Some(Constant::Whole {
            value: as_int(*value),
            of: Primitive::Int,
        })),
        Literal::Char(unit) => Ok(Some(Constant::Whole {
            value: i64::from(*unit),
            of: Primitive::Char,
        })),
        Literal::String(units) => Ok(Some(Constant::Text(copy_units(alloc, units.slice())?))),
        Literal::Boolean(value) => Ok(Some(Constant::Whole {
            value: i64::from(*value),
            of: Primitive::Boolean,
        })),
        Literal::Null => Ok(None),
    }
}
