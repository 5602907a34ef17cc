//! Methods by their numbers, and new frames for them.
ghost use Rattle.std.specs.Prelude.{◌≡◌, ◌∷◌, ◌++◌, [], IfOk, OnOk, None, replicate};
ghost use Rattle.std.specs.Option.{option_copied, option_map};
ghost use Rattle.jc_jvm.specs.Classes.{method_at, code_at};
ghost use Rattle.jc_jvm.specs.Frames.{laid_out, locals_of, frame_by, frame_of};

use jc_class_out::{ClassModel, CodeModel, MethodModel};
use jc_jvm::{Frame, Operands, Slots, Value};
use jc_rules::WantOfMemory;
use std::alloc::Global;

/// The method of that number in the class of that number.
pub fn method_of(classes: &[ClassModel], class: u64, method: u64) -> Option<&MethodModel>
    ensures { option_copied result ≡ method_at classes.now (class, method) }
{
    let class = classes.get(class as usize)?;
    class.methods.get(method as usize)
}

/// The code of a method, if it has any.
pub fn code_of(classes: &[ClassModel], class: u64, method: u64) -> Option<&CodeModel>
    ensures { option_copied result ≡ code_at classes.now class method }
{
    match method_of(classes, class, method) {
        Some(method) => method.code.as_ref(),
        None => None,
    }
}

fn add_local(locals: &mut Vec<Option<Value>>, value: Value) -> Result<(), WantOfMemory>
    ensures { OnOk result (locals.new.items ≡ locals.old.items ++ laid_out (value ∷ [])) }
{
    locals.push(Some(value))?;
    match value {
        Value::Long(_) => locals.push(None)?,
        Value::Whole(_) | Value::Address(_) | Value::NullValue => (),
    }
    Ok(())
}

#[tactic(auto, using(crate::proofs::Laid::laid_out_more))]
fn lay_out(
    alloc: Global,
    count: usize,
    arguments: &[Value],
) -> Result<Vec<Option<Value>>, WantOfMemory>
    ensures { IfOk result (λ locals. locals.items ≡ laid_out arguments.now) }
{
    let mut locals = Vec::with_capacity(alloc, count)?;
    for value in arguments {
        add_local(&mut locals, *value)?;
    }
    Ok(locals)
}

fn add_nothing(locals: &mut Vec<Option<Value>>, count: usize) -> Result<(), WantOfMemory>
    ensures { OnOk result (locals.new.items ≡ locals.old.items ++ replicate count None) }
{
    for made in 0..count {
        locals.push(None)?;
    }
    Ok(())
}

fn locals_for(
    alloc: Global,
    count: usize,
    arguments: &[Value],
) -> Result<Option<Slots<Option<Value>>>, WantOfMemory>
    ensures { IfOk result (λ locals. locals ≡ locals_of count arguments.now) }
{
    let mut locals = lay_out(alloc, count, arguments)?;
    if locals.len() > count {
        return Ok(None);
    }
    let more = count - locals.len();
    add_nothing(&mut locals, more)?;
    Ok(Some(Slots::of(locals)))
}

fn frame_in(
    alloc: Global,
    class: u64,
    method: u64,
    code: &CodeModel,
    arguments: &[Value],
) -> Result<Option<Frame>, WantOfMemory>
    ensures { IfOk result (λ frame. frame ≡ option_map (frame_by class method code.now) (locals_of code.now.locals arguments.now)) }
{
    match locals_for(alloc, code.locals as usize, arguments)? {
        Some(locals) => Ok(Some(Frame {
            class,
            method,
            at: 0,
            locals,
            stack: Operands::with_room(alloc, code.stack as usize)?,
        })),
        None => Ok(None),
    }
}

/// The frame of a method with these arguments, before its first instruction, where the method has code and room for them.
pub fn frame_for(
    alloc: Global,
    classes: &[ClassModel],
    class: u64,
    method: u64,
    arguments: &[Value],
) -> Result<Option<Frame>, WantOfMemory>
    ensures { IfOk result (λ frame. frame ≡ frame_of classes.now (class, method) arguments.now) }
{
    match code_of(classes, class, method) {
        Some(code) => frame_in(alloc, class, method, code, arguments),
        None => Ok(None),
    }
}
