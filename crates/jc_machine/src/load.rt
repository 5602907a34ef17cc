//! Where a run begins.
ghost use Rattle.std.specs.Prelude.{◌≡◌, ◌-◌, ◌∷◌, [], ◌==◌, ◌↔◌, IfOk, IfErr, map, None, Some, position, if◌then◌else◌};
ghost use Rattle.std.specs.List.{flat_map};
ghost use Rattle.std.specs.Char.Escape.{encode_utf16};
ghost use Rattle.std.specs.Str.{chars, IsUtf8};
ghost use Rattle.jc_machine.specs.Names.{slash, spelling, class_spelled, is_main};
ghost use Rattle.jc_machine.specs.Start.{main_frame, frame_in, first_frame, start_of};
ghost use Rattle.jc_machine.specs.Table.{state_of, classes_of};

use crate::rows::spells;
use crate::{Active, Machine, Operands, Program, Stack, Value};
use jc_class_out::{ClassModel, CodeModel, MethodModel};
use jc_rules::{Items, NoMain, Stop, Text, WantOfMemory};
use std::alloc::Global;

fn slashed(alloc: Global, name: &str) -> Result<Vec<char>, WantOfMemory>
    ensures { IfOk result (λ found. found.items ≡ map slash (chars name.now)) }
{
    let found = name
        .chars()
        .map(|c| if c == '.' { '/' } else { c })
        .collect(alloc)?;
    Ok(found)
}

fn units(alloc: Global, text: &[char]) -> Result<Items<u16>, WantOfMemory>
    ensures { IfOk result (λ found. found ≡ flat_map encode_utf16 text.now) }
{
    let mut found = Vec::new(alloc);
    for c in text {
        let mut pair = [0u16; 2];
        found.extend_from_slice(c.encode_utf16(&mut pair))?;
    }
    Ok(Items::of(found))
}

// The units by which class files spell a binary name.
fn spell(alloc: Global, name: &str) -> Result<Items<u16>, WantOfMemory>
    ensures { IfOk result (λ found. found ≡ spelling name.now) }
{
    let chars = slashed(alloc, name)?;
    units(alloc, &chars)
}

fn is_main_method(method: &MethodModel) -> bool
    ensures { result ≡ is_main method.now }
{
    spells(method.name.slice(), "main")
        && spells(method.descriptor.slice(), "([Ljava/lang/String;)V")
        && method.flags & 9 == 9
        && method.code.is_some()
}

fn frame(
    alloc: Global,
    class: usize,
    method: usize,
    code: &CodeModel,
) -> Result<Active, WantOfMemory>
    ensures { IfOk result (λ frame. frame ≡ main_frame class method code.now) }
{
    let mut locals = Items::new(alloc);
    locals.push(Some(Value::NullValue))?;
    for _ in 0..code.locals.saturating_sub(1) {
        locals.push(None)?;
    }
    Ok(Active {
        class: class as u64,
        method: method as u64,
        at: 0,
        locals,
        stack: Operands::with_room(alloc, code.stack as usize)?,
    })
}

fn main_in(methods: &[MethodModel]) -> Option<usize>
    ensures { result ≡ position is_main methods.now }
{
    methods.iter().position(is_main_method)
}

fn class_of(classes: &[ClassModel], name: &[u16]) -> Option<usize>
    ensures { result ≡ class_spelled classes.now name.now }
{
    classes.iter().position(|class| class.name.slice() == name)
}

fn find_frame(
    alloc: Global,
    class: usize,
    model: &ClassModel,
) -> Result<Option<Active>, WantOfMemory>
    ensures { IfOk result (λ frame. frame ≡ frame_in class model.now) }
{
    let methods = model.methods.slice();
    let Some(method) = main_in(methods) else {
        return Ok(None);
    };
    let Some(found) = methods.get(method) else {
        return Ok(None);
    };
    match &found.code {
        Some(code) => Ok(Some(frame(alloc, class, method, code)?)),
        None => Ok(None),
    }
}

fn find_first_frame(
    alloc: Global,
    classes: &[ClassModel],
    name: &[u16],
) -> Result<Option<Active>, WantOfMemory>
    ensures { IfOk result (λ frame. frame ≡ first_frame classes.now name.now) }
{
    let Some(class) = class_of(classes, name) else {
        return Ok(None);
    };
    let Some(model) = classes.get(class) else {
        return Ok(None);
    };
    find_frame(alloc, class, model)
}

impl Machine {
    /// A machine before the first instruction of the main of the first class of this binary name. The arguments are not made
    /// yet, since no row reads them.
    pub fn load(
        alloc: Global,
        classes: Items<ClassModel>,
        main: &Text,
        _args: &[Text],
    ) -> Result<Machine, Stop<NoMain>>
        ensures ok { IfOk result (λ m. (start_of classes main.now _args.now ≡ Some (state_of m)) × (classes_of m ≡ classes)) }
        ensures refused { IfErr result (λ error. error ≡ Stop.Refused (record {}) → start_of classes main.now _args.now ≡ None) }
        ensures utf8 { IsUtf8 main.now }
    {
        let name = spell(alloc, main.str())?;
        match find_first_frame(alloc, classes.slice(), name.slice())? {
            Some(now) => Ok(Machine {
                alloc,
                program: Program::new(alloc, classes)?,
                now,
                callers: Stack::new(alloc),
                over: None,
            }),
            None => Err(Stop::Refused(NoMain)),
        }
    }
}
