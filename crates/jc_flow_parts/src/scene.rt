//! What a walk over a body reads.
use jc_typed::Nodes;
use jc_types::{Env, Table};
use std::alloc::Global;

/// The declarations, the bounds of the captured variables, the trees of the method, and the locals that its body assigns.
#[derive(Clone, Copy)]
pub struct Scene<'a> {
    pub alloc: Global,
    pub table: &'a Table,
    pub env: &'a Env,
    pub nodes: &'a Nodes,
    pub assigned: &'a [u32],
}
