//! Where the items of a body stand.
use jc_exprs_worlds::{Here, Initialising};
use jc_looking::Scene as Names;
use jc_members::MethodIndex;
use jc_types::{ClassId, Constant, Table, Ty};

/// What the items of a body stand in: what a scene has but for the locals in scope, the program's methods by their names, and the type of the method's result, if it has one.
#[derive(Clone, Copy)]
pub struct Setting<'a> {
    pub table: &'a Table,
    pub names: Names<'a>,
    pub constants: &'a [Option<Constant>],
    pub class: ClassId,
    pub scope: u64,
    pub here: Here,
    pub initialising: Option<Initialising>,
    pub index: &'a MethodIndex,
    pub of_result: Option<&'a Ty>,
}
