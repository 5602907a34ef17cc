//! What a walk reads.
use crate::lanes::Group;
use jc_typed::Nodes;
use jc_types::{FieldId, Table};
use std::alloc::Global;

/// The declarations, the trees of the method, the blank final fields that it may assign, the variables that are walked together, and
/// which of them are final.
#[derive(Clone, Copy)]
pub struct Scene<'a> {
    pub alloc: Global,
    pub table: &'a Table,
    pub nodes: &'a Nodes,
    pub own: &'a [FieldId],
    pub group: Group,
    pub finals: u64,
}
