//! A warning: its kind, and where it stands.
ghost use Rattle.std.specs.Prelude.{◌≡◌};
ghost use Rattle.jc_unchecked_spec.specs.Kinds.{kind_number};

use jc_rules::Place;

/// What a warning is about. The numbers are those of the table that the README shows.
#[derive(Clone, Copy, Debug, PartialEq, Eq)]
pub enum WarningKind {
    /// A raw type is taken for a type with arguments.
    Conversion,
    /// A cast to a type whose arguments nothing at run time tells.
    Cast,
    /// A method or constructor of a raw type is called.
    RawCall,
    /// A field of a raw type is assigned.
    RawField,
    /// The result of a method doesn't stand for that of another one which it overrides.
    Result,
    /// A class or an interface is declared below a raw type.
    RawSupertype,
    /// An array whose elements' type isn't reifiable is made for arguments of a variable number.
    GenericArray,
}

#[derive(Clone, Copy, Debug, PartialEq, Eq)]
pub struct Warning {
    pub place: Place,
    pub kind: WarningKind,
}

impl WarningKind {
    /// The number of the kind, by which warnings at one place are ordered.
    pub fn number(self) -> u64
        ensures { result ≡ kind_number self }
    {
        match self {
            WarningKind::Conversion => 1,
            WarningKind::Cast => 2,
            WarningKind::RawCall => 3,
            WarningKind::RawField => 4,
            WarningKind::Result => 5,
            WarningKind::RawSupertype => 6,
            WarningKind::GenericArray => 7,
        }
    }
}
