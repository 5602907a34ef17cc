//! What no clause says of `jc_class_out`.
use jc_class_out::{
    ClassModel, CodeModel, Frame, Ins, Item, MethodModel, Operand, class_bytes, fits,
};
use jc_rules::{Items, WantOfMemory};
use std::alloc::Global;
use std::test::Fail;

fn units(alloc: Global, text: &str) -> Result<Items<u16>, WantOfMemory> {
    let mut units = Items::new(alloc);
    for unit in text.encode_utf16() {
        units.push(unit)?;
    }
    Ok(units)
}

fn ins(code: u8, operand: Operand) -> Ins {
    Ins {
        code,
        wide: false,
        operand,
    }
}

// static int f(int a) { return a == 0 ? 0 : 1; }, with a jump to this place and a frame there.
fn code(alloc: Global, to: u32) -> Result<CodeModel, WantOfMemory> {
    let mut list = Vec::new(alloc);
    list.push(ins(0x15, Operand::Local(0)))?;
    list.push(ins(0x99, Operand::Jump(to)))?;
    list.push(ins(0x04, Operand::Nothing))?;
    list.push(ins(0xac, Operand::Nothing))?;
    list.push(ins(0x03, Operand::Nothing))?;
    list.push(ins(0xac, Operand::Nothing))?;
    let mut locals = Items::new(alloc);
    locals.push(Item::Integer)?;
    let mut frames = Items::new(alloc);
    frames.push(Frame {
        at: to,
        locals,
        stack: Items::new(alloc),
    })?;
    Ok(CodeModel {
        stack: 1,
        locals: 1,
        ins: Items::of(list),
        handlers: Items::new(alloc),
        frames,
    })
}

fn class(alloc: Global, to: u32) -> Result<ClassModel, WantOfMemory> {
    let mut methods = Items::new(alloc);
    methods.push(MethodModel {
        flags: 9,
        name: units(alloc, "f")?,
        descriptor: units(alloc, "(I)I")?,
        code: Some(code(alloc, to)?),
    })?;
    Ok(ClassModel {
        flags: 0x21,
        name: units(alloc, "Main")?,
        superclass: Some(units(alloc, "java/lang/Object")?),
        interfaces: Items::new(alloc),
        fields: Items::new(alloc),
        methods,
        inner: Items::new(alloc),
    })
}

#[test]
fn frame_has_shortest_form(rt: HostRuntime) -> Result<(), Fail> {
    let alloc = rt.alloc();
    let class = class(alloc, 7)?;
    assert!(rt; fits(&class));
    let bytes = class_bytes(alloc, &class)?;
    // one frame, which is the same as the entry, seven bytes behind it (JVMS 4.7.4); then no attribute of the class
    assert!(rt; bytes.slice().ends_with(&[0, 1, 7, 0, 0]));
    Ok(())
}

#[test]
fn jump_into_an_instruction_has_no_file(rt: HostRuntime) -> Result<(), Fail> {
    let class = class(rt.alloc(), 3)?;
    assert!(rt; !fits(&class));
    Ok(())
}
