//! What a place in a body stands in.
use jc_exprs_locals::Locals;
use jc_looking::Scene as Names;
use jc_types::{ClassId, Constant, FieldId, Table};

/// Whether there is an instance of the class: none in a static place (JLS 8.1.3), and none yet among the arguments of a constructor's call of another constructor (JLS 8.8.7.1).
#[derive(Clone, Copy, Debug)]
pub enum Here {
    Instance,
    Static,
    Early,
}

/// An initialiser, of a field or a block (JLS 8.3.2, 8.6, 8.7): whether it is static, and the field that it is of.
#[derive(Clone, Copy, Debug)]
pub struct Initialising {
    pub is_static: bool,
    pub field: Option<FieldId>,
}

/// What a place in a body stands in. `constants` has for each field of the table its value, where it is a constant variable; `scope` is that of the method or class, by its number in the heads.
#[derive(Clone, Copy)]
pub struct Scene<'a> {
    pub table: &'a Table,
    pub names: Names<'a>,
    pub constants: &'a [Option<Constant>],
    pub class: ClassId,
    pub scope: u64,
    pub here: Here,
    pub initialising: Option<Initialising>,
    pub locals: &'a Locals,
}
