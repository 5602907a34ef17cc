//! Typed trees as they are walked: the node at a place of an arena, whatever the place, and lists from their first member on.
#![tactic(auto)]

mod lists;
mod nodes;
mod sorts;

pub use lists::{capture_list, case_list, catch_list, type_list};
pub use nodes::{
    arms_node, captures_node, cases_node, catches_node, declared_node, expr_node, links_node,
    operand_node, operands_node, ops_node, steps_node, stmt_node, stmts_node, types_node,
    variable_node,
};
pub use sorts::{ArmPlaces, CatchPlaces};
