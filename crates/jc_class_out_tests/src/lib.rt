//! Tests of `jc_class_out`, apart from it: a crate with tests is proved twice.
#![tactic(auto)]

#[cfg(test)]
mod tests;
