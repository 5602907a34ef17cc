//! What a class file says of one class or interface (JVMS 4.1).
use jc_rules::Items;

/// What a class file says of one class or interface (JVMS 4.1). Names, descriptors and texts are lists of UTF-16 units, and
/// names of classes have `/` between their parts.
#[derive(Clone, Debug, Drop)]
pub struct ClassModel {
    pub flags: u16,
    pub name: Items<u16>,
    /// None in `java/lang/Object` alone.
    pub superclass: Option<Items<u16>>,
    pub interfaces: Items<Items<u16>>,
    pub fields: Items<FieldModel>,
    pub methods: Items<MethodModel>,
    /// The rows of the attribute InnerClasses (JVMS 4.7.6), which is absent where there are none.
    pub inner: Items<InnerModel>,
}

/// A field (JVMS 4.5).
#[derive(Clone, Debug, Drop)]
pub struct FieldModel {
    pub flags: u16,
    pub name: Items<u16>,
    pub descriptor: Items<u16>,
}

/// A method (JVMS 4.6).
#[derive(Clone, Debug, Drop)]
pub struct MethodModel {
    pub flags: u16,
    pub name: Items<u16>,
    pub descriptor: Items<u16>,
    /// None where the flags say abstract or native.
    pub code: Option<CodeModel>,
}

/// A row of InnerClasses (JVMS 4.7.6).
#[derive(Clone, Debug, Drop)]
pub struct InnerModel {
    pub inner: Items<u16>,
    pub outer: Option<Items<u16>>,
    pub name: Option<Items<u16>>,
    pub flags: u16,
}

/// The attribute Code of a method (JVMS 4.7.3). Each place and target is a byte offset in the code.
#[derive(Clone, Debug, Drop)]
pub struct CodeModel {
    /// The greatest depth of the operand stack, in units of which a long takes two.
    pub stack: u16,
    /// How many units the local variables take, parameters included.
    pub locals: u16,
    pub ins: Items<Ins>,
    pub handlers: Items<Handler>,
    /// The attribute StackMapTable (JVMS 4.7.4), which is absent where there are no frames.
    pub frames: Items<Frame>,
}

/// A row of the exception table: exceptions of `class`, or all of them, that come up from `from` on and before `to` go to `at`.
#[derive(Clone, Debug, Drop)]
pub struct Handler {
    pub from: u32,
    pub to: u32,
    pub at: u32,
    pub class: Option<Items<u16>>,
}

/// The types of the locals and of the stack at a place of the code.
#[derive(Clone, Debug, Drop)]
pub struct Frame {
    pub at: u32,
    pub locals: Items<Item>,
    pub stack: Items<Item>,
}

/// A verification type (JVMS 4.7.4). A Long stands for two units.
#[derive(Clone, Debug, Drop)]
pub enum Item {
    Top,
    Integer,
    Long,
    NullItem,
    UninitializedThis,
    Object(Items<u16>),
    /// An object that `new` at this place made, before its constructor ran.
    Uninitialized(u32),
}

/// An instruction: its opcode, whether `wide` stands before it, and its operand.
#[derive(Clone, Debug, Drop)]
pub struct Ins {
    pub code: u8,
    pub wide: bool,
    pub operand: Operand,
}

/// What stands behind an opcode, with what the entries of the constant pool mean in place of their numbers.
#[derive(Clone, Debug, Drop)]
pub enum Operand {
    Nothing,
    /// Of bipush, sipush and newarray.
    Number(i32),
    Local(u16),
    /// Of iinc.
    Step {
        local: u16,
        by: i16,
    },
    Load(Loaded),
    Member {
        class: Items<u16>,
        name: Items<u16>,
        descriptor: Items<u16>,
    },
    Class(Items<u16>),
    Dims {
        class: Items<u16>,
        dims: u8,
    },
    /// Where the jump goes.
    Jump(u32),
    Switch {
        otherwise: u32,
        cases: Items<SwitchCase>,
    },
}

/// A constant of ldc, ldc_w or ldc2_w.
#[derive(Clone, Debug, Drop)]
pub enum Loaded {
    Whole(i32),
    Long(i64),
    Text(Items<u16>),
}

/// A case of lookupswitch.
#[derive(Clone, Debug, Drop)]
pub struct SwitchCase {
    pub key: i32,
    pub at: u32,
}
