//! What a walk over statements reads.
use crate::numbers::Numbers;
use jc_flow_parts::Scene;

/// The declarations and trees, and the locals that the body assigns.
#[derive(Clone, Copy)]
pub struct Walk<'a> {
    pub scene: Scene<'a>,
    pub assigned: &'a Numbers,
}
