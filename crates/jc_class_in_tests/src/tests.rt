//! What no clause says of `jc_class_in`.
use jc_class_in::{ClassFault, read_class};
use jc_class_out::{
    ClassModel, CodeModel, FieldModel, Frame, Handler, InnerModel, Ins, Item, Loaded, MethodModel,
    Operand, SwitchCase, class_bytes, fits,
};
use jc_rules::{Items, Stop, WantOfMemory};
use std::alloc::{AllocError, Global};
use std::test::Fail;

fn units(alloc: Global, text: &str) -> Result<Items<u16>, WantOfMemory> {
    let mut units = Items::new(alloc);
    for unit in text.encode_utf16() {
        units.push(unit)?;
    }
    Ok(units)
}

fn ins(code: u8, operand: Operand) -> Ins {
    Ins {
        code,
        wide: false,
        operand,
    }
}

fn shown(alloc: Global, class: &ClassModel) -> Result<String, AllocError> {
    format!(in alloc; "{class:?}")
}

// What is wrong with the bytes; none where they are read.
fn fault_of(alloc: Global, bytes: &[u8]) -> Option<ClassFault> {
    match read_class(alloc, bytes) {
        Err(Stop::Refused(fault)) => Some(fault),
        _ => None,
    }
}

#[test]
fn names_the_first_fault(rt: HostRuntime) {
    let alloc = rt.alloc();
    let cut = [0xCA, 0xFE, 0xBA, 0xBE, 0, 0, 0, 51, 0, 2, 1, 0, 3, 65];
    let nul = [0xCA, 0xFE, 0xBA, 0xBE, 0, 0, 0, 51, 0, 2, 1, 0, 1, 0];
    let kind = [0xCA, 0xFE, 0xBA, 0xBE, 0, 0, 0, 51, 0, 2, 2, 0];
    let cases: [(&[u8], ClassFault); 6] = [
        (&[], ClassFault::Short { at: 0 }),
        (&[0xCA, 0xFE, 0xBA, 0xBF], ClassFault::Magic),
        (&[0xCA, 0xFE, 0xBA, 0xBE, 0, 0, 0, 52], ClassFault::Version),
        (&cut, ClassFault::Short { at: 14 }),
        (&nul, ClassFault::Text { at: 13 }),
        (&kind, ClassFault::Tag { at: 10 }),
    ];
    for (bytes, fault) in cases {
        assert_eq!(rt; fault_of(alloc, bytes), Some(fault));
    }
}

// The file of `class A extends java.lang.Object` with `static long f()`, which answers 5: written by hand.
static BY_HAND: [u8; 109] = [
    0xCA, 0xFE, 0xBA, 0xBE, 0, 0, 0, 51, // magic, minor, major
    0, 10, // nine places
    1, 0, 1, 65, // 1: A
    7, 0, 1, // 2: class 1
    1, 0, 16, 106, 97, 118, 97, 47, 108, 97, 110, 103, 47, 79, 98, 106, 101, 99, 116, // 3
    7, 0, 3, // 4: class 3
    1, 0, 1, 102, // 5: f
    1, 0, 3, 40, 41, 74, // 6: ()J
    1, 0, 4, 67, 111, 100, 101, // 7: Code
    5, 0, 0, 0, 0, 0, 0, 0, 5, // 8 and 9: the long 5
    0, 33, 0, 2, 0, 4, 0, 0, 0, 0, // public, super; class, superclass, no interfaces, no fields
    0, 1, 0, 8, 0, 5, 0, 6, 0, 1, // one method: static, name, descriptor, one attribute
    0, 7, 0, 0, 0, 16, // Code, 16 bytes
    0, 2, 0, 0, 0, 0, 0, 4, // stack, locals, length
    0x14, 0, 8, 0xad, // ldc2_w 8, lreturn
    0, 0, 0, 0, // no handlers, no attributes
    0, 0, // no attributes of the class
];

fn method_of_file(alloc: Global) -> Result<MethodModel, WantOfMemory> {
    let mut code = Items::new(alloc);
    code.push(ins(0x14, Operand::Load(Loaded::Long(5))))?;
    code.push(ins(0xad, Operand::Nothing))?;
    let code = CodeModel {
        stack: 2,
        locals: 0,
        ins: code,
        handlers: Items::new(alloc),
        frames: Items::new(alloc),
    };
    Ok(MethodModel {
        flags: 8,
        name: units(alloc, "f")?,
        descriptor: units(alloc, "()J")?,
        code: Some(code),
    })
}

#[test]
fn reads_a_file_written_by_hand(rt: HostRuntime) -> Result<(), Fail> {
    let alloc = rt.alloc();
    let mut methods = Items::new(alloc);
    methods.push(method_of_file(alloc)?)?;
    let wanted = ClassModel {
        flags: 33,
        name: units(alloc, "A")?,
        superclass: Some(units(alloc, "java/lang/Object")?),
        interfaces: Items::new(alloc),
        fields: Items::new(alloc),
        methods,
        inner: Items::new(alloc),
    };
    match read_class(alloc, &BY_HAND) {
        Ok(class) => assert_eq!(rt; shown(alloc, &class)?, shown(alloc, &wanted)?),
        Err(_) => panic!(rt; "the file is refused"),
    }
    Ok(())
}

fn member(alloc: Global, names: [&str; 3]) -> Result<Operand, WantOfMemory> {
    let [class, name, descriptor] = names;
    Ok(Operand::Member {
        class: units(alloc, class)?,
        name: units(alloc, name)?,
        descriptor: units(alloc, descriptor)?,
    })
}

// They begin at 0, 4, 32, 35, 36, 39, 42, 45 and 50.
fn instructions(alloc: Global) -> Result<Items<Ins>, WantOfMemory> {
    let mut list = Items::new(alloc);
    list.push(Ins {
        code: 0x15,
        wide: true,
        operand: Operand::Local(300),
    })?;
    let mut cases = Items::new(alloc);
    cases.push(SwitchCase { key: -7, at: 0 })?;
    cases.push(SwitchCase { key: 9, at: 32 })?;
    let otherwise = 36;
    list.push(ins(0xab, Operand::Switch { otherwise, cases }))?;
    list.push(ins(0x13, Operand::Load(Loaded::Text(units(alloc, "a\0é")?))))?;
    list.push(ins(0x57, Operand::Nothing))?;
    list.push(ins(0xa7, Operand::Jump(0)))?;
    list.push(ins(0xb2, member(alloc, ["A", "n", "I"])?))?;
    list.push(ins(0xb8, member(alloc, ["A", "g", "(I)V"])?))?;
    list.push(ins(0xb9, member(alloc, ["B", "h", "(JI)V"])?))?;
    list.push(ins(0xb1, Operand::Nothing))?;
    Ok(list)
}

fn frames(alloc: Global) -> Result<Items<Frame>, WantOfMemory> {
    let mut locals = Items::new(alloc);
    locals.push(Item::Integer)?;
    locals.push(Item::Long)?;
    locals.push(Item::Object(units(alloc, "B")?))?;
    let mut stack = Items::new(alloc);
    stack.push(Item::Uninitialized(4))?;
    stack.push(Item::NullItem)?;
    let mut frames = Items::new(alloc);
    frames.push(Frame {
        at: 32,
        locals,
        stack,
    })?;
    frames.push(Frame {
        at: 36,
        locals: Items::new(alloc),
        stack: Items::new(alloc),
    })?;
    Ok(frames)
}

fn code(alloc: Global) -> Result<CodeModel, WantOfMemory> {
    let mut handlers = Items::new(alloc);
    handlers.push(Handler {
        from: 0,
        to: 51,
        at: 39,
        class: Some(units(alloc, "E")?),
    })?;
    handlers.push(Handler {
        from: 4,
        to: 32,
        at: 39,
        class: None,
    })?;
    Ok(CodeModel {
        stack: 9,
        locals: 302,
        ins: instructions(alloc)?,
        handlers,
        frames: frames(alloc)?,
    })
}

fn methods(alloc: Global) -> Result<Items<MethodModel>, WantOfMemory> {
    let mut methods = Items::new(alloc);
    methods.push(MethodModel {
        flags: 0x401,
        name: units(alloc, "f")?,
        descriptor: units(alloc, "([[JLB;)LA;")?,
        code: None,
    })?;
    methods.push(MethodModel {
        flags: 8,
        name: units(alloc, "g")?,
        descriptor: units(alloc, "(I)V")?,
        code: Some(code(alloc)?),
    })?;
    Ok(methods)
}

// A class with a member of each sort.
fn class(alloc: Global) -> Result<ClassModel, WantOfMemory> {
    let mut interfaces = Items::new(alloc);
    interfaces.push(units(alloc, "B")?)?;
    let mut fields = Items::new(alloc);
    fields.push(FieldModel {
        flags: 8,
        name: units(alloc, "n")?,
        descriptor: units(alloc, "I")?,
    })?;
    let mut inner = Items::new(alloc);
    inner.push(InnerModel {
        inner: units(alloc, "A$C")?,
        outer: Some(units(alloc, "A")?),
        name: None,
        flags: 2,
    })?;
    Ok(ClassModel {
        flags: 0x421,
        name: units(alloc, "A")?,
        superclass: None,
        interfaces,
        fields,
        methods: methods(alloc)?,
        inner,
    })
}

#[test]
fn reads_what_is_written(rt: HostRuntime) -> Result<(), Fail> {
    let alloc = rt.alloc();
    let class = class(alloc)?;
    assert!(rt; fits(&class));
    let bytes = class_bytes(alloc, &class)?;
    match read_class(alloc, bytes.slice()) {
        Ok(read) => assert_eq!(rt; shown(alloc, &read)?, shown(alloc, &class)?),
        Err(_) => panic!(rt; "the file is refused"),
    }
    Ok(())
}
