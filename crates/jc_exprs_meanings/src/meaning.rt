//! What stands before a point.
use jc_exprs_nodes::Part;
use jc_exprs_senses::NameSense;

/// A value, by its typed part in the arena; or what a name means that is no value: a class, a package or nothing.
#[derive(Drop)]
pub enum MeaningAt {
    Value(Part),
    Other(NameSense),
}
