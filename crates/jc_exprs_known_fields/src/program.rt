//! What fields are declared in.
use jc_looking::Scene as Names;
use jc_types::Table;

/// A program's table, and what names are looked up in.
#[derive(Clone, Copy)]
pub struct Program<'a> {
    pub table: &'a Table,
    pub names: Names<'a>,
}
