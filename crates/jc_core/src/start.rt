//! Where a run begins.
ghost use Rattle.std.specs.Prelude.{◌≡◌, [], IfOk, IfErr, MatchOption, Some, None, length, map, position};
ghost use Rattle.std.specs.Option.{unwrap_or};
ghost use Rattle.std.specs.List.{flat_map};
ghost use Rattle.std.specs.Char.Escape.{encode_utf16};
ghost use Rattle.std.specs.Str.{chars};
ghost use Rattle.jc_jvm.specs.Start.{slash, spelling, is_main as main_by, main_of as main_by_name, units_of_text, with_strings, arguments_cell, main_waits, begins, started, start_of};
ghost use Rattle.jc_waiting.specs.Onwards.{state_of};
ghost use Rattle.jc_core.specs.States.{classes_of, state_in};
ghost use Rattle.jc_jvm.specs.Classes.{class_named as class_by_name};
ghost use Rattle.jc_jvm.specs.Types.{zero_of_field};
ghost use Rattle.jc_jvm.specs.Worlds.{first_world, string_class};

use crate::Core;
use jc_calls::{frame_for, is_static, methods_in};
use jc_class_out::{ClassModel, FieldModel, MethodModel};
use jc_heap::{Classes, class_spelled, field_sort, has_flag, make_string, spells, zero};
use jc_jvm::{
    Base, Cell, Cells, ClassState, Ending, Frame, Literals, Shape, Slots, Statics, Value, Waiting,
    World,
};
use jc_rows::Program;
use jc_rules::{Items, NoMain, Stop, Text, WantOfMemory};
use jc_waiting::{Onward, Stack, initialise};
use std::alloc::Global;

fn units(alloc: Global, text: &[char]) -> Result<Items<u16>, WantOfMemory>
    ensures { IfOk result (λ found. found ≡ flat_map encode_utf16 text.now) }
{
    let mut found = Vec::new(alloc);
    for c in text {
        let mut pair = [0u16; 2];
        found.extend_from_slice(c.encode_utf16(&mut pair))?;
    }
    Ok(Items::of(found))
}

fn slashed(alloc: Global, name: &str) -> Result<Vec<char>, WantOfMemory>
    ensures { IfOk result (λ found. found.items ≡ map slash (chars name.now)) }
{
    let found = name
        .chars()
        .map(|c| if c == '.' { '/' } else { c })
        .collect(alloc)?;
    Ok(found)
}

// The units by which class files spell a binary name.
fn spell(alloc: Global, name: &str) -> Result<Items<u16>, WantOfMemory>
    ensures { IfOk result (λ found. found ≡ spelling name.now) }
{
    let chars = slashed(alloc, name)?;
    units(alloc, &chars)
}

#[tactic(auto, using(crate::proofs::Strings::map_same))]
fn chars_of(alloc: Global, text: &str) -> Result<Vec<char>, WantOfMemory>
    ensures { IfOk result (λ found. found.items ≡ chars text.now) }
{
    let found = text.chars().map(|c| c).collect(alloc)?;
    Ok(found)
}

fn text_units(alloc: Global, text: &str) -> Result<Items<u16>, WantOfMemory>
    ensures { IfOk result (λ found. found ≡ units_of_text text.now) }
{
    let chars = chars_of(alloc, text)?;
    units(alloc, &chars)
}

fn is_main(method: &MethodModel) -> bool
    ensures { result ≡ main_by method.now }
{
    spells(method.name.slice(), "main")
        && spells(method.descriptor.slice(), "([Ljava/lang/String;)V")
        && has_flag(1, method.flags)
        && is_static(method)
        && method.code.is_some()
}

fn main_in(methods: &[MethodModel]) -> Option<usize>
    ensures { result ≡ position main_by methods.now }
{
    methods.iter().position(is_main)
}

fn place_named(classes: &[ClassModel], name: &[u16]) -> Option<usize>
    ensures { result ≡ class_by_name classes.now name.now }
{
    classes.iter().position(|class| class.name.slice() == name)
}

fn main_of(
    alloc: Global,
    classes: &[ClassModel],
    name: &str,
) -> Result<Option<(u64, u64)>, WantOfMemory>
    ensures { IfOk result (λ place. place ≡ main_by_name classes.now name.now) }
{
    let spelled = spell(alloc, name)?;
    match place_named(classes, spelled.slice()) {
        Some(class) => match main_in(methods_in(classes, class as u64)) {
            Some(method) => Ok(Some((class as u64, method as u64))),
            None => Ok(None),
        },
        None => Ok(None),
    }
}

fn field_zero(field: &FieldModel) -> Value
    ensures { result ≡ zero_of_field field.now }
{
    zero(field_sort(field.descriptor.slice()))
}

fn zeros(alloc: Global, fields: &[FieldModel]) -> Result<Slots<Value>, WantOfMemory>
    ensures { IfOk result (λ found. found ≡ map zero_of_field fields.now) }
{
    let mut found = Vec::with_capacity(alloc, fields.len())?;
    for field in fields {
        found.push(field_zero(field))?;
    }
    Ok(Slots::of(found))
}

fn statics_of(alloc: Global, classes: &[ClassModel]) -> Result<Statics, WantOfMemory>
    ensures { IfOk result (λ found. found ≡ map (λ c. map zero_of_field c.fields) classes.now) }
{
    let mut found = Statics::new(alloc);
    for class in classes {
        found.push(zeros(alloc, class.fields.slice())?)?;
    }
    Ok(found)
}

fn states_of(alloc: Global, classes: &[ClassModel]) -> Result<Slots<ClassState>, WantOfMemory>
    ensures { IfOk result (λ found. found ≡ map (λ c. ClassState.Untouched) classes.now) }
{
    let mut found = Vec::with_capacity(alloc, classes.len())?;
    for class in classes {
        found.push(ClassState::Untouched)?;
    }
    Ok(Slots::of(found))
}

fn world_of(alloc: Global, classes: &[ClassModel]) -> Result<World, WantOfMemory>
    ensures { IfOk result (λ world. world ≡ first_world classes.now) }
{
    Ok(World {
        heap: Cells::new(alloc),
        states: states_of(alloc, classes)?,
        statics: statics_of(alloc, classes)?,
        interned: Literals::new(alloc),
    })
}

#[tactic(auto, using(crate::proofs::Strings::string_rules))]
// Strings of the arguments, or none where there can't be any.
fn make_strings(
    alloc: Global,
    classes: &Classes,
    texts: &[Text],
    world: &mut World,
) -> Result<Option<Vec<Value>>, WantOfMemory>
    ensures { IfOk result (λ found. MatchOption found (with_strings classes.now texts.now (world.old, []) ≡ None) (λ values. with_strings classes.now texts.now (world.old, []) ≡ Some (world.new, values.items))) }
{
    let mut found = Vec::new(alloc);
    for text in texts {
        let units = text_units(alloc, text.str())?;
        match make_string(alloc, classes, units.slice(), world)? {
            Some(address) => found.push(Value::Address(address))?,
            None => return Ok(None),
        }
    }
    Ok(Some(found))
}

fn string_number(classes: &[ClassModel]) -> u64
    ensures { result ≡ unwrap_or (string_class classes.now) (length classes.now) }
{
    match class_spelled(classes, "java/lang/String") {
        Some(class) => class as u64,
        None => classes.len() as u64,
    }
}

fn arguments_array(classes: &[ClassModel], values: Vec<Value>) -> Cell
    ensures { result ≡ arguments_cell classes.now values.items }
{
    Cell::Array {
        of: Shape {
            base: Base::Class(string_number(classes)),
            dims: 0,
        },
        items: Slots::of(values),
    }
}

fn wait_for(
    alloc: Global,
    classes: &Classes,
    class: u64,
    frame: Option<Frame>,
    now: &mut Frame,
    world: &mut World,
    waiting: &mut Stack<Waiting>,
) -> Result<Onward, WantOfMemory>
    requires { waiting.old ≡ [] }
    ensures { IfOk result (λ on. main_waits classes.now class world.old frame ≡ state_of on world.new now.new waiting.new) }
{
    match frame {
        Some(frame) => {
            waiting.push(Waiting::Caller(frame))?;
            initialise(alloc, classes, class, now, world, waiting)
        }
        None => Ok(Onward::Ends(Ending::Stuck)),
    }
}

fn begin_with(
    alloc: Global,
    classes: &Classes,
    class: u64,
    method: u64,
    values: Vec<Value>,
    now: &mut Frame,
    world: &mut World,
    waiting: &mut Stack<Waiting>,
) -> Result<Onward, WantOfMemory>
    requires { waiting.old ≡ [] }
    ensures { IfOk result (λ on. begins classes.now (class, method) (Some (world.old, values.items)) ≡ state_of on world.new now.new waiting.new) }
{
    let address = world.heap.len() as u64;
    world.heap.push(arguments_array(classes.models(), values))?;
    let frame = frame_for(
        alloc,
        classes.models(),
        class,
        method,
        &[Value::Address(address)],
    )?;
    wait_for(alloc, classes, class, frame, now, world, waiting)
}

fn begin(
    alloc: Global,
    classes: &Classes,
    class: u64,
    method: u64,
    arguments: &[Text],
    now: &mut Frame,
    world: &mut World,
    waiting: &mut Stack<Waiting>,
) -> Result<Onward, WantOfMemory>
    requires { waiting.old ≡ [] }
    ensures { IfOk result (λ on. begins classes.now (class, method) (with_strings classes.now arguments.now (world.old, [])) ≡ state_of on world.new now.new waiting.new) }
{
    match make_strings(alloc, classes, arguments, world)? {
        Some(values) => begin_with(alloc, classes, class, method, values, now, world, waiting),
        None => Ok(Onward::Ends(Ending::Stuck)),
    }
}

impl Core {
    fn start(
        alloc: Global,
        models: Items<ClassModel>,
        class: u64,
        method: u64,
        arguments: &[Text],
    ) -> Result<Core, WantOfMemory>
        ensures classes { IfOk result (λ core. classes_of core ≡ models) }
        ensures state { IfOk result (λ core. started models arguments.now (class, method) ≡ state_in core) }
    {
        let program = Program::of(alloc, models)?;
        let mut world = world_of(alloc, program.classes().models())?;
        let mut waiting = Stack::new(alloc);
        let mut now = Frame::empty(alloc);
        let on = begin(
            alloc,
            program.classes(),
            class,
            method,
            arguments,
            &mut now,
            &mut world,
            &mut waiting,
        )?;
        Ok(Core {
            alloc,
            program,
            world,
            waiting,
            frame: now,
            on,
        })
    }

    /// A machine before the first step of the main of the first class of this binary name.
    pub fn load(
        alloc: Global,
        models: Items<ClassModel>,
        main: &Text,
        arguments: &[Text],
    ) -> Result<Core, Stop<NoMain>>
        ensures ok { IfOk result (λ core. (start_of models main.now arguments.now ≡ Some (state_in core)) × (classes_of core ≡ models)) }
        ensures refused { IfErr result (λ stop. stop ≡ Stop.Refused (record {}) → start_of models main.now arguments.now ≡ None) }
    {
        match main_of(alloc, models.slice(), main.str())? {
            Some((class, method)) => Ok(Core::start(alloc, models, class, method, arguments)?),
            None => Err(Stop::Refused(NoMain)),
        }
    }
}
