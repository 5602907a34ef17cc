//! The parts of a file with their numbers, and what may be wrong with them.
use jc_rules::Items;

/// What is wrong with bytes that are no class file. A number is how many bytes are left from the field on that is at fault.
#[derive(Clone, Copy, Debug, PartialEq, Eq)]
pub enum Flaw {
    /// The bytes end inside a field.
    Short,
    Magic,
    Version,
    /// A tag or a kind that the format lacks, or an attribute at a wrong place.
    Tag(usize),
    /// An index, an offset, a count or a length that doesn't fit.
    Index(usize),
    Opcode(usize),
    /// Bytes behind the class.
    Trailing(usize),
    /// A text that isn't modified UTF-8.
    Text(usize),
}

/// An entry of a constant pool as it stands in a file (JVMS 4.4), with numbers of other entries.
#[derive(Clone, Debug, Drop)]
pub enum Entry {
    /// The second place of the Long before it.
    Behind,
    Text(Items<u16>),
    Whole(i32),
    Long(i64),
    Class(u16),
    /// A constant of type String.
    Literal(u16),
    Field { class: u16, pair: u16 },
    Method { class: u16, pair: u16 },
    Interface { class: u16, pair: u16 },
    /// A name and a descriptor.
    Pair { name: u16, descriptor: u16 },
}

/// An entry, and how many bytes are left from its tag on.
#[derive(Clone, Debug, Drop)]
pub struct Slot {
    pub left: usize,
    pub entry: Entry,
}

/// An entry of a constant pool with what it means, the entries that it names put in.
#[derive(Clone, Copy, Debug, PartialEq, Eq, Hash)]
pub enum Constant<'a> {
    Text(&'a [u16]),
    Whole(i32),
    Long(i64),
    /// The second place of that long.
    Behind(i64),
    Class(&'a [u16]),
    Literal(&'a [u16]),
    Field {
        class: &'a [u16],
        name: &'a [u16],
        descriptor: &'a [u16],
    },
    Method {
        class: &'a [u16],
        name: &'a [u16],
        descriptor: &'a [u16],
    },
    Interface {
        class: &'a [u16],
        name: &'a [u16],
        descriptor: &'a [u16],
    },
    Pair(&'a [u16], &'a [u16]),
}

/// What stands behind an opcode.
#[derive(Clone, Copy, Debug, PartialEq, Eq)]
pub enum Kind {
    Plain,
    /// A number of one byte.
    Byte,
    /// A number of two bytes.
    Short,
    /// The type of an array's elements.
    ArrayOf,
    /// A constant by an index of one byte.
    Load,
    /// A constant by an index of two bytes.
    LoadWide,
    LoadLong,
    Local,
    Step,
    Jump,
    Switch,
    Field,
    Method,
    Interface,
    Class,
    Dims,
    /// The opcode is none of the profile.
    Unknown,
}
