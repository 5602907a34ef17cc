//! Why bytes are no class file.
ghost use Rattle.std.specs.Prelude.{◌≡◌, ◌-◌, ◌^◌};
ghost use Rattle.jc_class_in.specs.Faults.{place_in, fault_in};

use jc_class_out::Flaw;

/// Why bytes are no class file: the first field that isn't whole or breaks its rule. `at` is the place of the field's first
/// byte, or the greatest u32 where that is greater; that of `Short` is the number of all bytes.
#[derive(Clone, Copy, Debug, PartialEq, Eq)]
pub enum ClassFault {
    /// The bytes end inside a field.
    Short { at: u32 },
    Magic,
    Version,
    /// A tag or a kind that the format lacks, or an attribute at a wrong place.
    Tag { at: u32 },
    /// An index, an offset, a count or a length that doesn't fit.
    Index { at: u32 },
    Opcode { at: u32 },
    /// Bytes behind the class.
    Trailing { at: u32 },
    /// A text that isn't modified UTF-8.
    Text { at: u32 },
}

/// The place from which on so many bytes are left of so many.
fn place(size: usize, left: usize) -> u32
    ensures { result ≡ place_in size left }
{
    match u32::try_from(size.saturating_sub(left)) {
        Ok(place) => place,
        Err(_) => u32::MAX,
    }
}

/// What the flaw is in a file of so many bytes.
pub fn fault(size: usize, flaw: Flaw) -> ClassFault
    ensures { result ≡ fault_in size flaw }
{
    match flaw {
        Flaw::Short => ClassFault::Short { at: place(size, 0) },
        Flaw::Magic => ClassFault::Magic,
        Flaw::Version => ClassFault::Version,
        Flaw::Tag(left) => ClassFault::Tag {
            at: place(size, left),
        },
        Flaw::Index(left) => ClassFault::Index {
            at: place(size, left),
        },
        Flaw::Opcode(left) => ClassFault::Opcode {
            at: place(size, left),
        },
        Flaw::Trailing(left) => ClassFault::Trailing {
            at: place(size, left),
        },
        Flaw::Text(left) => ClassFault::Text {
            at: place(size, left),
        },
    }
}
