//! What a walk over statements knows at a point.
use jc_rules::{Items, Place, Refusal};
use jc_types::Ty;

/// A type that is thrown, and the expression or statement that throws it.
#[derive(Drop)]
pub struct Thrown {
    pub ty: Ty,
    pub place: Place,
}

/// The ways out of a statement but for its end: the statements, by their targets, that reachable jumps end or go on with, each
/// once, and what is thrown.
#[derive(Drop)]
pub struct Ways {
    pub breaks: Items<u32>,
    pub continues: Items<u32>,
    pub thrown: Items<Thrown>,
}

/// A parameter of a catch clause that nothing assigns, and the types that it is thrown again with (JLS 11.2.2).
#[derive(Drop)]
pub struct Exact {
    pub local: u32,
    pub types: Items<Ty>,
}

/// What a walk knows behind what it has seen: whether control comes here, the ways out so far, the locals that were assigned, the
/// parameters of the catch clauses around, and the broken rules.
#[derive(Drop)]
pub struct Flow {
    pub live: bool,
    pub ways: Ways,
    pub assigned: Items<u32>,
    pub exact: Items<Exact>,
    pub broken: Items<Refusal>,
}
