//! Tests of `jc_parse_type`, apart from it: a crate with tests is proved twice.
#![tactic(auto)]

#[cfg(test)]
mod tests;
