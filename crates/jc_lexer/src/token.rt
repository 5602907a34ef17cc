//! Tokens: keywords, signs, identifiers and literals.
use jc_rules::{Boxed, Items, Text};

/// A keyword (JLS 3.9), or one of the literals `true`, `false` and `null` (JLS 3.10.3, 3.10.7), which are no identifiers.
#[derive(Clone, Copy, Debug, PartialEq, Eq, Hash)]
pub enum Key {
    Abstract,
    Assert,
    Boolean,
    Break,
    Byte,
    Case,
    Catch,
    Char,
    Class,
    Const,
    Continue,
    Default,
    Do,
    Double,
    Else,
    Enum,
    Extends,
    Final,
    Finally,
    Float,
    For,
    Goto,
    If,
    Implements,
    Import,
    Instanceof,
    Int,
    Interface,
    Long,
    Native,
    New,
    Package,
    Private,
    Protected,
    Public,
    Return,
    Short,
    Static,
    Strictfp,
    Super,
    Switch,
    Synchronized,
    This,
    Throw,
    Throws,
    Transient,
    Try,
    Void,
    Volatile,
    While,
    True,
    False,
    Null,
}

/// A separator or an operator (JLS 3.11, 3.12), `@` and `...` among them. There is none of two characters or more that begins
/// with `>`: those are runs of tokens that touch.
#[derive(Clone, Copy, Debug, PartialEq, Eq, Hash)]
pub enum Sign {
    /// `...`
    Ellipsis,
    /// `<<=`
    ShiftLeftAssign,
    /// `==`
    Equal,
    /// `<=`
    LessEqual,
    /// `!=`
    NotEqual,
    /// `&&`
    AndAnd,
    /// `||`
    OrOr,
    /// `++`
    Increment,
    /// `--`
    Decrement,
    /// `<<`
    ShiftLeft,
    /// `+=`
    PlusAssign,
    /// `-=`
    MinusAssign,
    /// `*=`
    StarAssign,
    /// `/=`
    SlashAssign,
    /// `&=`
    AndAssign,
    /// `|=`
    OrAssign,
    /// `^=`
    CaretAssign,
    /// `%=`
    PercentAssign,
    /// `.`
    Dot,
    /// `;`
    Semicolon,
    /// `(`
    LeftParen,
    /// `)`
    RightParen,
    /// `,`
    Comma,
    /// `{`
    LeftBrace,
    /// `}`
    RightBrace,
    /// `=`
    Assign,
    /// `[`
    LeftBracket,
    /// `]`
    RightBracket,
    /// `<`
    Less,
    /// `>`
    Greater,
    /// `+`
    Plus,
    /// `-`
    Minus,
    /// `*`
    Star,
    /// `/`
    Slash,
    /// `!`
    Not,
    /// `&`
    And,
    /// `|`
    Or,
    /// `?`
    Question,
    /// `:`
    Colon,
    /// `@`
    At,
    /// `%`
    Percent,
    /// `^`
    Caret,
    /// `~`
    Tilde,
}

/// What a token is, with its value.
#[derive(Clone, Debug, Drop, PartialEq, Eq, Hash)]
pub enum TokenKind {
    /// An identifier, its Unicode escapes translated.
    Word(Text),
    Key(Key),
    /// A whole literal: its value, whether it ends in `L` or `l`, and whether it is decimal (JLS 3.10.1).
    Number {
        value: u64,
        long: bool,
        decimal: bool,
    },
    /// A character literal: its UTF-16 unit (JLS 3.10.4).
    CharLit(u16),
    /// A string literal: its UTF-16 units (JLS 3.10.5).
    StringLit(Boxed<Items<u16>>),
    Sign(Sign),
}

/// A token: what it is, the offsets in the source of its first byte and behind its last one, and whether the next token begins
/// where it ends.
#[derive(Clone, Debug, Drop, PartialEq, Eq, Hash)]
pub struct Token {
    pub kind: TokenKind,
    pub from: u32,
    pub to: u32,
    pub touches: bool,
}
