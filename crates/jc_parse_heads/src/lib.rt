//! Reads what holds no statement: heads of statements and members, simple statements, and nodes of what was read (JLS 8, 9, 14).
#![tactic(auto)]

mod catching;
mod closing;
mod ends;
mod fronts;
mod locals;
mod looping;
mod lows;
mod openings;
mod resourcing;
mod shapes;
mod simple;

pub use closing::closed;
pub use ends::{in_some, no_items, no_statements, super_call, this_call};
pub use fronts::{
    behind_name, behind_static, declaration_stands, key_call_stands, label_stands, modifier_stands,
    reach_behind_key, rest_stands, sign_stands, statement_stands, static_block_stands, word_stands,
};
pub use locals::{
    catch_opening, ended_effect, finally_opening, for_opening, local, local_or_effect, resources,
    typed,
};
pub use lows::are_low;
pub use openings::{do_test, label, named_label, roomy_tested, tested};
pub use shapes::code_head;
pub use simple::{break_at, continue_at, empty, return_at, throw_at};
