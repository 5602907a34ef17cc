//! The rows of the instruction table.
ghost use Rattle.std.specs.Prelude.{◌≡◌, ◌&&◌, ◌||◌, ◌==◌};
ghost use Rattle.std.specs.Str.{bytes_eq};
ghost use Rattle.jc_machine.specs.Rows.{plain_row, constant_row, is_out, is_write, is_object_constructor, member_row, operand_row, row_of};

use jc_class_out::{Ins, Loaded, Operand};

/// A row of the table, with its operand.
#[derive(Clone, Copy, Debug, PartialEq, Eq)]
pub enum Row {
    /// An int onto the stack.
    Push(i32),
    /// A reference from a local variable onto the stack.
    LoadReference(u16),
    AddInt,
    /// `java/lang/System.out` onto the stack.
    GetOut,
    /// The call of `java/io/PrintStream.write(int)`.
    WriteByte,
    /// The call of `java/lang/Object.<init>()`.
    Construct,
    Return,
}

/// A row at its place in code, and the place behind its instruction.
#[derive(Clone, Copy, Debug, PartialEq, Eq)]
pub struct Placed {
    pub row: Row,
    pub next: u32,
}

/// Whether units spell an ASCII text.
pub fn spells(units: &[u16], text: &str) -> bool
    ensures { result ≡ bytes_eq units.now text.now }
{
    let bytes = text.as_bytes();
    if units.len() != bytes.len() {
        return false;
    }
    for (i, unit) in units.iter().enumerate() {
        if *unit != u16::from(bytes[i]) {
            return false;
        }
    }
    true
}

fn plain(code: u8) -> Option<Row>
    ensures { result ≡ plain_row code }
{
    if code >= 0x02 && code <= 0x08 {
        Some(Row::Push(i32::from(code) - 3))
    } else if code == 0x60 {
        Some(Row::AddInt)
    } else if code == 0xb1 {
        Some(Row::Return)
    } else {
        None
    }
}

fn constant(code: u8, loaded: &Loaded) -> Option<Row>
    ensures { result ≡ constant_row code loaded.now }
{
    match loaded {
        Loaded::Whole(n) => {
            if code == 0x12 || code == 0x13 {
                Some(Row::Push(*n))
            } else {
                None
            }
        }
        _ => None,
    }
}

fn names_out(class: &[u16], name: &[u16], descriptor: &[u16]) -> bool
    ensures { result ≡ is_out class.now name.now descriptor.now }
{
    spells(class, "java/lang/System")
        && spells(name, "out")
        && spells(descriptor, "Ljava/io/PrintStream;")
}

fn names_write(class: &[u16], name: &[u16], descriptor: &[u16]) -> bool
    ensures { result ≡ is_write class.now name.now descriptor.now }
{
    spells(class, "java/io/PrintStream") && spells(name, "write") && spells(descriptor, "(I)V")
}

fn names_object_constructor(class: &[u16], name: &[u16], descriptor: &[u16]) -> bool
    ensures { result ≡ is_object_constructor class.now name.now descriptor.now }
{
    spells(class, "java/lang/Object") && spells(name, "<init>") && spells(descriptor, "()V")
}

fn member(code: u8, class: &[u16], name: &[u16], descriptor: &[u16]) -> Option<Row>
    ensures { result ≡ member_row code class.now name.now descriptor.now }
{
    if code == 0xb2 && names_out(class, name, descriptor) {
        Some(Row::GetOut)
    } else if code == 0xb6 && names_write(class, name, descriptor) {
        Some(Row::WriteByte)
    } else if code == 0xb7 && names_object_constructor(class, name, descriptor) {
        Some(Row::Construct)
    } else {
        None
    }
}

fn by_operand(code: u8, operand: &Operand) -> Option<Row>
    ensures { result ≡ operand_row code operand.now }
{
    match operand {
        Operand::Nothing => plain(code),
        Operand::Number(n) => {
            if code == 0x10 || code == 0x11 {
                Some(Row::Push(*n))
            } else {
                None
            }
        }
        Operand::Local(local) => {
            if code == 0x19 {
                Some(Row::LoadReference(*local))
            } else {
                None
            }
        }
        Operand::Load(loaded) => constant(code, loaded),
        Operand::Member {
            class,
            name,
            descriptor,
        } => member(code, class.slice(), name.slice(), descriptor.slice()),
        _ => None,
    }
}

/// The row of an instruction.
pub fn read_row(ins: &Ins) -> Option<Row>
    ensures { result ≡ row_of ins.now }
{
    if ins.wide {
        None
    } else {
        by_operand(ins.code, &ins.operand)
    }
}
