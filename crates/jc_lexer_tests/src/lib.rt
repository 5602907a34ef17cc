//! Tests of `jc_lexer`, apart from it: a crate with tests is proved twice.
#![tactic(auto)]

#[cfg(test)]
mod tests;
