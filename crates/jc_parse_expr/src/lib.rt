//! How expressions are read (JLS 15). The readers stand in `specs/`, and that they read what the grammar spells in `proofs/`.
#![tactic(auto)]

mod compared;
mod creations;
mod levels;
mod lists;
mod measured;
mod members;
mod operator_joints;
mod operator_nodes;
mod operators;
mod parsing;
mod parts;
mod pieces;
mod prefixes;
mod primary_joints;
mod primary_nodes;
mod primes;
mod shapes;
mod skips;
mod specials;
mod unaries;
mod within;

pub use parsing::{ExprFound, expr_at};
pub use within::{conditional_within, effect_within, expr_within, init_within};
