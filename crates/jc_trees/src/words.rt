//! The words of trees: names, numbers, keywords and operators.
use jc_lexer::{Key, Sign, TokenKind};
use jc_tree::{AssignOp, BinaryOp, Ident, Literal, PostfixOp, PrefixSign, PrimitiveWord};
use std::alloc::{AllocError, Global};

pub fn put_ident(out: &mut String, ident: &Ident) -> Result<(), AllocError> {
    out.push_str(ident.text.str())
}

pub fn put_number(alloc: Global, out: &mut String, number: u64) -> Result<(), AllocError> {
    let digits = format!(in alloc; "{number}")?;
    out.push_str(digits.as_str())
}

/// A space and the number of each unit.
fn put_units(alloc: Global, out: &mut String, units: &[u16]) -> Result<(), AllocError> {
    for unit in units {
        out.push_str(" ")?;
        put_number(alloc, out, u64::from(*unit))?;
    }
    Ok(())
}

fn put_char(alloc: Global, out: &mut String, unit: u16) -> Result<(), AllocError> {
    out.push_str("(char ")?;
    put_number(alloc, out, u64::from(unit))?;
    out.push_str(")")
}

fn put_string(alloc: Global, out: &mut String, units: &[u16]) -> Result<(), AllocError> {
    out.push_str("(string")?;
    put_units(alloc, out, units)?;
    out.push_str(")")
}

fn put_whole(alloc: Global, out: &mut String, value: u64, long: bool) -> Result<(), AllocError> {
    put_number(alloc, out, value)?;
    out.push_str(if long { "L" } else { "" })
}

pub fn put_literal(alloc: Global, out: &mut String, literal: &Literal) -> Result<(), AllocError> {
    match literal {
        Literal::Number { value, long, .. } => put_whole(alloc, out, *value, *long),
        Literal::Char(unit) => put_char(alloc, out, *unit),
        Literal::String(units) => put_string(alloc, out, units.slice()),
        Literal::Boolean(true) => out.push_str("true"),
        Literal::Boolean(false) => out.push_str("false"),
        Literal::Null => out.push_str("null"),
    }
}

pub fn put_token(alloc: Global, out: &mut String, kind: &TokenKind) -> Result<(), AllocError> {
    match kind {
        TokenKind::Word(text) => out.push_str(text.str()),
        TokenKind::Key(key) => out.push_str(key_text(*key)),
        TokenKind::Number { value, long, .. } => put_whole(alloc, out, *value, *long),
        TokenKind::CharLit(unit) => put_char(alloc, out, *unit),
        TokenKind::StringLit(units) => put_string(alloc, out, units.get().slice()),
        TokenKind::Sign(sign) => out.push_str(sign_text(*sign)),
    }
}

pub fn primitive_text(word: PrimitiveWord) -> &'static str {
    match word {
        PrimitiveWord::Boolean => "boolean",
        PrimitiveWord::Byte => "byte",
        PrimitiveWord::Short => "short",
        PrimitiveWord::Char => "char",
        PrimitiveWord::Int => "int",
        PrimitiveWord::Long => "long",
    }
}

pub fn assign_text(op: AssignOp) -> &'static str {
    match op {
        AssignOp::Plain => "=",
        AssignOp::Plus => "+=",
        AssignOp::Minus => "-=",
        AssignOp::Times => "*=",
        AssignOp::Divide => "/=",
        AssignOp::Remainder => "%=",
        AssignOp::And => "&=",
        AssignOp::Or => "|=",
        AssignOp::Xor => "^=",
        AssignOp::ShiftLeft => "<<=",
        AssignOp::ShiftRight => ">>=",
        AssignOp::ShiftRightZero => ">>>=",
    }
}

pub fn binary_text(op: BinaryOp) -> &'static str {
    match op {
        BinaryOp::OrElse => "||",
        BinaryOp::AndAlso => "&&",
        BinaryOp::Or => "|",
        BinaryOp::Xor => "^",
        BinaryOp::And => "&",
        BinaryOp::Equal => "==",
        BinaryOp::NotEqual => "!=",
        BinaryOp::Less => "<",
        BinaryOp::Greater => ">",
        BinaryOp::LessEqual => "<=",
        BinaryOp::GreaterEqual => ">=",
        BinaryOp::ShiftLeft => "<<",
        BinaryOp::ShiftRight => ">>",
        BinaryOp::ShiftRightZero => ">>>",
        BinaryOp::Plus => "+",
        BinaryOp::Minus => "-",
        BinaryOp::Times => "*",
        BinaryOp::Divide => "/",
        BinaryOp::Remainder => "%",
    }
}

pub fn prefix_text(sign: PrefixSign) -> &'static str {
    match sign {
        PrefixSign::Plus => "+",
        PrefixSign::Minus => "-",
        PrefixSign::Increment => "++",
        PrefixSign::Decrement => "--",
        PrefixSign::Not => "!",
        PrefixSign::Complement => "~",
    }
}

pub fn postfix_text(op: PostfixOp) -> &'static str {
    match op {
        PostfixOp::Increment => "++",
        PostfixOp::Decrement => "--",
    }
}

fn key_text(key: Key) -> &'static str {
    match key {
        Key::Abstract => "abstract",
        Key::Assert => "assert",
        Key::Boolean => "boolean",
        Key::Break => "break",
        Key::Byte => "byte",
        Key::Case => "case",
        Key::Catch => "catch",
        Key::Char => "char",
        Key::Class => "class",
        Key::Const => "const",
        Key::Continue => "continue",
        Key::Default => "default",
        Key::Do => "do",
        Key::Double => "double",
        Key::Else => "else",
        Key::Enum => "enum",
        Key::Extends => "extends",
        Key::Final => "final",
        Key::Finally => "finally",
        Key::Float => "float",
        Key::For => "for",
        Key::Goto => "goto",
        Key::If => "if",
        Key::Implements => "implements",
        Key::Import => "import",
        Key::Instanceof => "instanceof",
        Key::Int => "int",
        Key::Interface => "interface",
        Key::Long => "long",
        Key::Native => "native",
        Key::New => "new",
        Key::Package => "package",
        Key::Private => "private",
        Key::Protected => "protected",
        Key::Public => "public",
        Key::Return => "return",
        Key::Short => "short",
        Key::Static => "static",
        Key::Strictfp => "strictfp",
        Key::Super => "super",
        Key::Switch => "switch",
        Key::Synchronized => "synchronized",
        Key::This => "this",
        Key::Throw => "throw",
        Key::Throws => "throws",
        Key::Transient => "transient",
        Key::Try => "try",
        Key::Void => "void",
        Key::Volatile => "volatile",
        Key::While => "while",
        Key::True => "true",
        Key::False => "false",
        Key::Null => "null",
    }
}

fn sign_text(sign: Sign) -> &'static str {
    match sign {
        Sign::Ellipsis => "...",
        Sign::ShiftLeftAssign => "<<=",
        Sign::Equal => "==",
        Sign::LessEqual => "<=",
        Sign::NotEqual => "!=",
        Sign::AndAnd => "&&",
        Sign::OrOr => "||",
        Sign::Increment => "++",
        Sign::Decrement => "--",
        Sign::ShiftLeft => "<<",
        Sign::PlusAssign => "+=",
        Sign::MinusAssign => "-=",
        Sign::StarAssign => "*=",
        Sign::SlashAssign => "/=",
        Sign::AndAssign => "&=",
        Sign::OrAssign => "|=",
        Sign::CaretAssign => "^=",
        Sign::PercentAssign => "%=",
        Sign::Dot => ".",
        Sign::Semicolon => ";",
        Sign::LeftParen => "(",
        Sign::RightParen => ")",
        Sign::Comma => ",",
        Sign::LeftBrace => "{",
        Sign::RightBrace => "}",
        Sign::Assign => "=",
        Sign::LeftBracket => "[",
        Sign::RightBracket => "]",
        Sign::Less => "<",
        Sign::Greater => ">",
        Sign::Plus => "+",
        Sign::Minus => "-",
        Sign::Star => "*",
        Sign::Slash => "/",
        Sign::Not => "!",
        Sign::And => "&",
        Sign::Or => "|",
        Sign::Question => "?",
        Sign::Colon => ":",
        Sign::At => "@",
        Sign::Percent => "%",
        Sign::Caret => "^",
        Sign::Tilde => "~",
    }
}
