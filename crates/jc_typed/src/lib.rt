//! The typed trees of a program: members are resolved, type arguments inferred, each conversion step and each guard stands where
//! it acts, and the variables that capture makes are named at the expression that makes them.
//!
//! The trees of a method stand in an arena, `Nodes`. A node names its parts by their places below it, and contracts speak of
//! the tree at a place, as `expr_of nodes at`.
#![tactic(auto)]

mod expression_bulk;
mod expressions;
mod laws;
mod lists;
mod nodes;
mod program;
mod statement_bulk;
mod statements;
mod weights;

pub use expressions::{CallKind, ExprForm, ExprNode, Joint, OperandNode, Printed, VariableNode};
pub use laws::{form_below, same_form};
pub use lists::{
    ArmsNode, Capture, CapturesNode, Case, CasesNode, CatchesNode, DeclaredNode, LinksNode,
    ListNode, NamesNode, OpsNode, PlacesNode, StepNode, StepsNode,
};
pub use nodes::{Node, Nodes};
pub use program::{
    Body, BoxedIn, Boxes, Iterating, Known, Local, Natives, Printing, Selection, ThrownClasses,
    TypedMethod, TypedProgram,
};
pub use statement_bulk::bulk;
pub use statements::{StmtForm, StmtNode};
