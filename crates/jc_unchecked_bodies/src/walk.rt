//! What a walk over a body reads.
use jc_typed::Nodes;
use jc_types::{Env, Table};
use std::alloc::Global;

/// The declarations, the bounds of the captured variables, and the trees of the method.
#[derive(Clone, Copy)]
pub struct Walk<'a> {
    pub alloc: Global,
    pub table: &'a Table,
    pub env: &'a Env,
    pub nodes: &'a Nodes,
}
