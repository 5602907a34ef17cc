//! What the bodies of a program stand in.
use jc_looking::Scene as Names;
use jc_members::MethodIndex;
use jc_types::{Constant, Table};

/// A program's table, what names are looked up in, for each field of the table its value, where it is a constant variable, and the methods by their names.
#[derive(Clone, Copy)]
pub struct Program<'a> {
    pub table: &'a Table,
    pub names: Names<'a>,
    pub constants: &'a [Option<Constant>],
    pub index: &'a MethodIndex,
}
