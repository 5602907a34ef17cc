//! The parts of a walk over a body (JLS 11.2, 14.21): what expressions throw, what is caught, tests of loops, and the steps that
//! change what is known.
#![tactic(auto)]

mod conditions;
mod expressions;
mod listed;
mod scene;
mod state;
mod throwing;

pub use conditions::{is_false, is_labelled, is_true, may_fail, may_hold, passes};
pub use expressions::{declared_flow, operand_flow, operands_flow, throw_listed};
pub use listed::{next_stmt, stmts_listed, types_listed};
pub use scene::Scene;
pub use state::{
    break_if, break_out, close, come_again, enter_clause, enter_label, exact_or, go_on, is_among,
    leave, leave_clause, meet, no_ways, one_type, pass, reach, set_live, swap_thrown, swap_ways,
    throw,
};
pub use throwing::{is_one_useless, is_undeclared, rethrown, uncaught};
