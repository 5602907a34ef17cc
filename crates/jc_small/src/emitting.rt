//! The class of a program.
ghost use Rattle.std.specs.Prelude.{◌≡◌, ◌≤◌, [], ◌∷◌, ◌++◌, IfOk, OnOk, Some};
ghost use Rattle.std.specs.List.{AllByRecursion};
ghost use Rattle.jc_small.specs.Small.{IsSum};
ghost use Rattle.jc_small.specs.ClassOf.{const_ins, sum_code, write_code, main_code, main_class, init_code, ins as one_ins};

use crate::reading::Program;
use jc_class_out::{ClassModel, CodeModel, Ins, Loaded, MethodModel, Operand};
use jc_rules::{Items, WantOfMemory};
use std::alloc::Global;

fn units(alloc: Global, text: &str) -> Result<Items<u16>, WantOfMemory>
    ensures { IfOk result (λ u. u ≡ text.now) }
{
    let mut units = Items::new(alloc);
    for b in text.as_bytes() {
        units.push(u16::from(*b))?;
    }
    Ok(units)
}

fn ins(code: u8, operand: Operand) -> Ins
    ensures { result ≡ one_ins code operand }
{
    Ins {
        code,
        wide: false,
        operand,
    }
}

fn member(
    alloc: Global,
    code: u8,
    class: &str,
    name: &str,
    descriptor: &str,
) -> Result<Ins, WantOfMemory>
    ensures { IfOk result (λ i. i ≡ one_ins code (Operand.Member class.now name.now descriptor.now)) }
{
    let class = units(alloc, class)?;
    let name = units(alloc, name)?;
    let descriptor = units(alloc, descriptor)?;
    Ok(ins(
        code,
        Operand::Member {
            class,
            name,
            descriptor,
        },
    ))
}

fn constant(n: u32) -> Ins
    requires { n ≤ 2147483647 }
    ensures { result ≡ const_ins n }
{
    if n <= 5 {
        ins(n as u8 + 3, Operand::Nothing)
    } else if n <= 127 {
        ins(0x10, Operand::Number(n as i32))
    } else if n <= 32767 {
        ins(0x11, Operand::Number(n as i32))
    } else {
        ins(0x13, Operand::Load(Loaded::Whole(n as i32)))
    }
}

/// Adds the code of a sum.
fn emit_sum(sum: &[u32], code: &mut Items<Ins>) -> Result<(), WantOfMemory>
    requires { IsSum sum.now }
    ensures { OnOk result (code.new ≡ code.old ++ sum_code sum.now) }
{
    let Some((first, more)) = sum.split_first() else {
        return Ok(());
    };
    code.push(constant(*first))?;
    for n in more {
        code.push(constant(*n))?;
        code.push(ins(0x60, Operand::Nothing))?;
    }
    Ok(())
}

/// Adds the code of a write.
fn emit_write(alloc: Global, sum: &[u32], code: &mut Items<Ins>) -> Result<(), WantOfMemory>
    requires { IsSum sum.now }
    ensures { OnOk result (code.new ≡ code.old ++ write_code sum.now) }
{
    code.push(member(
        alloc,
        0xb2,
        "java/lang/System",
        "out",
        "Ljava/io/PrintStream;",
    )?)?;
    emit_sum(sum, code)?;
    code.push(member(alloc, 0xb6, "java/io/PrintStream", "write", "(I)V")?)?;
    Ok(())
}

fn emit_main(alloc: Global, program: &Program) -> Result<Items<Ins>, WantOfMemory>
    requires { AllByRecursion IsSum program.now }
    ensures { IfOk result (λ code. code ≡ main_code program.now) }
{
    let mut code = Items::new(alloc);
    for sum in program.slice() {
        emit_write(alloc, sum.slice(), &mut code)?;
    }
    code.push(ins(0xb1, Operand::Nothing))?;
    Ok(code)
}

fn emit_init(alloc: Global) -> Result<Items<Ins>, WantOfMemory>
    ensures { IfOk result (λ code. code ≡ init_code) }
{
    let mut code = Items::new(alloc);
    code.push(ins(0x19, Operand::Local(0)))?;
    code.push(member(alloc, 0xb7, "java/lang/Object", "<init>", "()V")?)?;
    code.push(ins(0xb1, Operand::Nothing))?;
    Ok(code)
}

fn method(
    alloc: Global,
    flags: u16,
    name: &str,
    descriptor: &str,
    stack: u16,
    ins: Items<Ins>,
) -> Result<MethodModel, WantOfMemory>
    ensures { IfOk result (λ m. m ≡ record { flags = flags; name = name.now; descriptor = descriptor.now; code = Some (record { stack = stack; locals = 1; ins = ins; handlers = []; frames = [] }) }) }
{
    Ok(MethodModel {
        flags,
        name: units(alloc, name)?,
        descriptor: units(alloc, descriptor)?,
        code: Some(CodeModel {
            stack,
            locals: 1,
            ins,
            handlers: Items::new(alloc),
            frames: Items::new(alloc),
        }),
    })
}

/// The class of a program.
pub fn emit(alloc: Global, program: &Program) -> Result<ClassModel, WantOfMemory>
    requires { AllByRecursion IsSum program.now }
    ensures { IfOk result (λ class. class ≡ main_class program.now) }
{
    let init = method(alloc, 0, "<init>", "()V", 1, emit_init(alloc)?)?;
    let code = emit_main(alloc, program)?;
    let main = method(alloc, 9, "main", "([Ljava/lang/String;)V", 3, code)?;
    let mut methods = Items::new(alloc);
    methods.push(init)?;
    methods.push(main)?;
    Ok(ClassModel {
        flags: 0x20,
        name: units(alloc, "Main")?,
        superclass: Some(units(alloc, "java/lang/Object")?),
        interfaces: Items::new(alloc),
        fields: Items::new(alloc),
        methods,
        inner: Items::new(alloc),
    })
}
