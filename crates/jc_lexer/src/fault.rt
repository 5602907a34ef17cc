//! What keeps a source from having tokens.
ghost use Rattle.std.specs.Prelude.{◌≡◌};
ghost use Rattle.jc_lexer.specs.Faults.{place_of, rule_of};

/// Why a text has no tokens, and where: `at` is the offset of a byte of the source.
#[derive(Clone, Copy, Debug, PartialEq, Eq)]
pub enum LexFault {
    /// A byte that begins no UTF-8 sequence of a character.
    NotUtf8 { at: u32 },
    /// A backslash and `u` without four hexadecimal digits (JLS 3.3): the backslash.
    BadEscape { at: u32 },
    /// A character that begins no token, comment or white space.
    BadCharacter { at: u32 },
    /// The start of a literal that isn't one of Java's, or a whole literal above 18446744073709551615.
    BadLiteral { at: u32 },
    /// The start of a comment that doesn't end.
    OpenComment { at: u32 },
    /// The start of a character or string literal that doesn't end on its line.
    OpenText { at: u32 },
    /// The start of a floating-point literal (JLS 3.10.2), which javag has none of.
    Floating { at: u32 },
    /// A `$` outside of literals and comments, which javag takes in no identifier.
    Dollar { at: u32 },
}

impl LexFault {
    /// The number of the rule that is broken, from 102 to 109.
    pub fn rule(self) -> u16
        ensures { result ≡ rule_of self }
    {
        match self {
            LexFault::NotUtf8 { .. } => 102,
            LexFault::BadEscape { .. } => 103,
            LexFault::BadCharacter { .. } => 104,
            LexFault::BadLiteral { .. } => 105,
            LexFault::OpenComment { .. } => 106,
            LexFault::OpenText { .. } => 107,
            LexFault::Floating { .. } => 108,
            LexFault::Dollar { .. } => 109,
        }
    }

    /// The offset that it stands at.
    pub fn at(self) -> u32
        ensures { result ≡ place_of self }
    {
        match self {
            LexFault::NotUtf8 { at } => at,
            LexFault::BadEscape { at } => at,
            LexFault::BadCharacter { at } => at,
            LexFault::BadLiteral { at } => at,
            LexFault::OpenComment { at } => at,
            LexFault::OpenText { at } => at,
            LexFault::Floating { at } => at,
            LexFault::Dollar { at } => at,
        }
    }
}
