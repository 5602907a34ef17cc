//! What a call still has to do.
use jc_meaning::Frame;
use jc_rules::Items;
use jc_running::Value;
use jc_typed::{CallKind, Printed};
use jc_types::{ClassId, FieldId, MethodId, Ty};

/// Calls: by their kind, with a receiver if they have one; of the method itself, without an object or with one; of the body that an
/// object's class selects; the body in variables and a frame of its own, and what its completion gives; and that of a static method
/// behind the initialisation of its class.
#[derive(Drop)]
pub enum CallTask {
    With {
        kind: CallKind,
        method: MethodId,
        receiver: Items<Value>,
        args: Items<Value>,
        types: Items<Ty>,
    },
    Static {
        method: MethodId,
        args: Items<Value>,
        types: Items<Ty>,
    },
    Direct {
        method: MethodId,
        receiver: Value,
        args: Items<Value>,
        types: Items<Ty>,
    },
    Virtual {
        method: MethodId,
        receiver: Value,
        args: Items<Value>,
        types: Items<Ty>,
    },
    Run {
        method: MethodId,
        locals: Items<Value>,
        frame: Frame,
    },
    Answer {
        method: MethodId,
    },
    Ready {
        method: MethodId,
        args: Items<Value>,
        types: Items<Ty>,
    },
}

/// Classes: their use, their first use as a node, their initialisation, that of their superclass, and their initialiser.
#[derive(Clone, Copy)]
pub enum ClassTask {
    Ready { class: ClassId },
    First { class: ClassId },
    Initialise { class: ClassId },
    Superclass { class: ClassId },
    Initialiser { class: ClassId },
}

/// What gives a value once a class is ready or a value is stored.
#[derive(Drop)]
pub enum NothingToValue {
    Static {
        field: FieldId,
    },
    Text {
        of: Printed,
        value: Value,
    },
    Give {
        value: Value,
    },
    Create {
        ty: u32,
        method: MethodId,
        args: u32,
    },
    Call {
        method: MethodId,
        args: Items<Value>,
        types: Items<Ty>,
    },
}

/// What takes the values of operands and gives a value.
#[derive(Drop)]
pub enum ValuesToValue {
    Constant {
        value: u32,
    },
    Static {
        field: FieldId,
    },
    Args {
        kind: CallKind,
        method: MethodId,
        type_args: u32,
        args: u32,
    },
    Call {
        kind: CallKind,
        method: MethodId,
        type_args: u32,
        receiver: Items<Value>,
    },
    Construct {
        ty: u32,
        method: MethodId,
        object: u64,
    },
    NewArray {
        ty: u32,
    },
    Test,
}

/// What is done behind another thing where neither gives a value.
#[derive(Clone, Copy)]
pub enum NothingToNothing {
    PutStatic { field: FieldId, value: Value },
    DeclareLast { local: u32, value: u32 },
}
