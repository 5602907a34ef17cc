//! The tokens of a source (JLS 3).
#![tactic(auto)]

mod decode;
mod fault;
mod files;
mod keyword;
mod lexeme;
mod lexing;
mod literal;
mod number;
mod signs;
mod symbol;
mod token;

pub use fault::LexFault;
pub use files::lex_all;
pub use lexing::tokens;
pub use token::{Key, Sign, Token, TokenKind};
