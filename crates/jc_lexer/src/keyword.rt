//! The words that are keywords (JLS 3.9), `true`, `false` and `null` among them.
ghost use Rattle.std.specs.Prelude.{◌≡◌, ℕ, List, length};
ghost use Rattle.std.specs.Str.{bytes_eq};
ghost use Rattle.jc_lexer.specs.Words.{spelling, key_in};
ghost use Rattle.jc_lexer.specs.declared.keyword.TheConstants.{KEYS};

use crate::token::Key;

/// The keywords of JLS 3.9, and the literals `true`, `false` and `null`.
const KEYS: [Key; 53] = [
    Key::Abstract,
    Key::Assert,
    Key::Boolean,
    Key::Break,
    Key::Byte,
    Key::Case,
    Key::Catch,
    Key::Char,
    Key::Class,
    Key::Const,
    Key::Continue,
    Key::Default,
    Key::Do,
    Key::Double,
    Key::Else,
    Key::Enum,
    Key::Extends,
    Key::Final,
    Key::Finally,
    Key::Float,
    Key::For,
    Key::Goto,
    Key::If,
    Key::Implements,
    Key::Import,
    Key::Instanceof,
    Key::Int,
    Key::Interface,
    Key::Long,
    Key::Native,
    Key::New,
    Key::Package,
    Key::Private,
    Key::Protected,
    Key::Public,
    Key::Return,
    Key::Short,
    Key::Static,
    Key::Strictfp,
    Key::Super,
    Key::Switch,
    Key::Synchronized,
    Key::This,
    Key::Throw,
    Key::Throws,
    Key::Transient,
    Key::Try,
    Key::Void,
    Key::Volatile,
    Key::While,
    Key::True,
    Key::False,
    Key::Null,
];

/// Those of two letters.
const TWO: [Key; 2] = [Key::Do, Key::If];

/// Those of three letters.
const THREE: [Key; 4] = [Key::For, Key::Int, Key::New, Key::Try];

/// Those of four letters.
const FOUR: [Key; 11] = [
    Key::Byte,
    Key::Case,
    Key::Char,
    Key::Else,
    Key::Enum,
    Key::Goto,
    Key::Long,
    Key::This,
    Key::Void,
    Key::True,
    Key::Null,
];

/// Those of five letters.
const FIVE: [Key; 11] = [
    Key::Break,
    Key::Catch,
    Key::Class,
    Key::Const,
    Key::Final,
    Key::Float,
    Key::Short,
    Key::Super,
    Key::Throw,
    Key::While,
    Key::False,
];

/// Those of six letters.
const SIX: [Key; 9] = [
    Key::Assert,
    Key::Double,
    Key::Import,
    Key::Native,
    Key::Public,
    Key::Return,
    Key::Static,
    Key::Switch,
    Key::Throws,
];

/// Those of seven letters.
const SEVEN: [Key; 6] = [
    Key::Boolean,
    Key::Default,
    Key::Extends,
    Key::Finally,
    Key::Package,
    Key::Private,
];

/// Those of eight letters.
const EIGHT: [Key; 4] = [Key::Abstract, Key::Continue, Key::Strictfp, Key::Volatile];

/// Those of nine letters.
const NINE: [Key; 3] = [Key::Interface, Key::Protected, Key::Transient];

/// Those of ten letters.
const TEN: [Key; 2] = [Key::Implements, Key::Instanceof];

/// Those of twelve letters.
const TWELVE: [Key; 1] = [Key::Synchronized];

/// How a keyword is spelled.
pub fn spelling(key: Key) -> &'static str
    ensures { result.now ≡ spelling key }
{
    match key {
        Key::Abstract => "abstract",
        Key::Assert => "assert",
        Key::Boolean => "boolean",
        Key::Break => "break",
        Key::Byte => "byte",
        Key::Case => "case",
        Key::Catch => "catch",
        Key::Char => "char",
        Key::Class => "class",
        Key::Const => "const",
        Key::Continue => "continue",
        Key::Default => "default",
        Key::Do => "do",
        Key::Double => "double",
        Key::Else => "else",
        Key::Enum => "enum",
        Key::Extends => "extends",
        Key::Final => "final",
        Key::Finally => "finally",
        Key::Float => "float",
        Key::For => "for",
        Key::Goto => "goto",
        Key::If => "if",
        Key::Implements => "implements",
        Key::Import => "import",
        Key::Instanceof => "instanceof",
        Key::Int => "int",
        Key::Interface => "interface",
        Key::Long => "long",
        Key::Native => "native",
        Key::New => "new",
        Key::Package => "package",
        Key::Private => "private",
        Key::Protected => "protected",
        Key::Public => "public",
        Key::Return => "return",
        Key::Short => "short",
        Key::Static => "static",
        Key::Strictfp => "strictfp",
        Key::Super => "super",
        Key::Switch => "switch",
        Key::Synchronized => "synchronized",
        Key::This => "this",
        Key::Throw => "throw",
        Key::Throws => "throws",
        Key::Transient => "transient",
        Key::Try => "try",
        Key::Void => "void",
        Key::Volatile => "volatile",
        Key::While => "while",
        Key::True => "true",
        Key::False => "false",
        Key::Null => "null",
    }
}

/// Whether a text spells the keyword; where it doesn't, mostly the first letter tells.
fn spells(text: &str, key: Key) -> bool
    ensures { result ≡ bytes_eq (spelling key) text.now }
{
    let word = spelling(key);
    match (word.as_bytes(), text.as_bytes()) {
        ([first, ..], [letter, ..]) => first == letter && word == text,
        _ => word == text,
    }
}

/// The keyword of the list that the text spells.
fn key_in(keys: &[Key], text: &str) -> Option<Key>
    ensures { result ≡ key_in keys.now text.now }
{
    for key in keys {
        if spells(text, *key) {
            return Some(*key);
        }
    }
    None
}

/// The keywords that a text of this length can spell, and maybe others.
fn keys_of(len: usize) -> &'static [Key]
    ensures { (text : List ℕ) → length text ≡ len → key_in result.now text ≡ key_in KEYS text }
{
    match len {
        1 => &[],
        2 => &TWO,
        3 => &THREE,
        4 => &FOUR,
        5 => &FIVE,
        6 => &SIX,
        7 => &SEVEN,
        8 => &EIGHT,
        9 => &NINE,
        10 => &TEN,
        12 => &TWELVE,
        _ => &KEYS,
    }
}

/// The keyword that a text spells.
pub fn key_of(text: &str) -> Option<Key>
    ensures { result ≡ key_in KEYS text.now }
{
    key_in(keys_of(text.len()), text)
}
