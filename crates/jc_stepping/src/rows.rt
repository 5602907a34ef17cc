//! One step, by its row.
ghost use Rattle.std.specs.Prelude.{◌≡◌, IfOk, OnErr, IsTrue, None};
ghost use Rattle.jc_jvm.specs.Calls.{called_statically, arguments_of};
ghost use Rattle.jc_jvm.specs.Table.{first_initialised};
ghost use Rattle.jc_rows.specs.Acts.{row_step};
ghost use Rattle.jc_stepping.specs.Done.{KeptWhenAsks, step_done};
ghost use Rattle.jc_stepping.specs.InPlace.{in_place};
ghost use Rattle.jc_stepping.specs.Makes.{class_makes, row_makes, row_step_makes, static_makes};

use crate::Did;
use crate::act::{stuck, throw_top};
use crate::calls::{call_special, call_static, call_virtual};
use crate::in_place::act_in_place;
use crate::making::{make_array, make_nest, make_object, make_text};
use crate::returns::leave;
use jc_heap::Classes;
use jc_jvm::{Frame, Sort, Waiting, World};
use jc_plain::Act;
use jc_rows::{Program, Row};
use jc_rules::WantOfMemory;
use jc_waiting::{Onward, Stack, initialise_first, is_open, settle};
use std::alloc::Global;

// invokestatic.
fn call_of_class(
    alloc: Global,
    classes: &Classes,
    class: u64,
    method: u64,
    sorts: &[Sort],
    next: u32,
    now: &mut Frame,
    world: &mut World,
    waiting: &mut Stack<Waiting>,
) -> Result<Did, WantOfMemory>
    ensures step { IfOk result (λ did. first_initialised classes.now world.old now.old waiting.old class (called_statically classes.now (class, method) world.old next now.old waiting.old (arguments_of sorts.now now.old.stack.values)) ≡ step_done classes.now did world.new now.new waiting.new) }
    ensures kept { IfOk result (λ did. KeptWhenAsks did world.old now.old waiting.old world.new now.new waiting.new) }
    ensures memory { OnErr result (IsTrue (class_makes classes.now world.old class (static_makes classes.now (class, method) world.old (arguments_of sorts.now now.old.stack.values)))) }
{
    if is_open(world, class) {
        call_static(
            alloc, classes, class, method, sorts, next, now, world, waiting,
        )
    } else {
        let on = initialise_first(alloc, classes, class, now, world, waiting)?;
        Ok(Did::Moves(on))
    }
}

// A row that isn't done in place.
#[tactic(auto, using(crate::proofs::InPlace::closed_class, crate::proofs::InPlace::unknown_literal))]
fn step_out(
    alloc: Global,
    program: &Program,
    row: &Row,
    next: u32,
    now: &mut Frame,
    world: &mut World,
    waiting: &mut Stack<Waiting>,
) -> Result<Did, WantOfMemory>
    requires { in_place program.now world.old next now.old row.now ≡ None }
    ensures step { IfOk result (λ did. row_step program.now world.old next now.old waiting.old row.now ≡ step_done program.now did world.new now.new waiting.new) }
    ensures kept { IfOk result (λ did. KeptWhenAsks did world.old now.old waiting.old world.new now.new waiting.new) }
    ensures memory { OnErr result (IsTrue (row_makes program.now world.old now.old waiting.old row.now)) }
{
    let classes = program.classes();
    match row {
        Row::CallVirtual { signature, sorts } => call_virtual(
            alloc,
            classes,
            *signature,
            sorts.slice(),
            next,
            now,
            world,
            waiting,
        ),
        Row::CallSpecial { target, sorts } => call_special(
            alloc,
            classes,
            *target,
            sorts.slice(),
            next,
            now,
            world,
            waiting,
        ),
        Row::CallStatic {
            class,
            method,
            sorts,
        } => call_of_class(
            alloc,
            classes,
            *class,
            *method,
            sorts.slice(),
            next,
            now,
            world,
            waiting,
        ),
        Row::Return { wanted, given } => {
            let on = leave(alloc, program, *wanted, *given, now, world, waiting)?;
            Ok(Did::Moves(on))
        }
        Row::Throw => {
            let on = throw_top(alloc, classes, now, world, waiting)?;
            Ok(Did::Moves(on))
        }
        Row::LoadStatic { class, .. } => {
            let on = initialise_first(alloc, classes, *class, now, world, waiting)?;
            Ok(Did::Moves(on))
        }
        Row::StoreStatic { class, .. } => {
            let on = initialise_first(alloc, classes, *class, now, world, waiting)?;
            Ok(Did::Moves(on))
        }
        Row::New(class) => {
            let on = make_object(alloc, classes, *class, next, now, world, waiting)?;
            Ok(Did::Moves(on))
        }
        Row::NewArray(of) => {
            let on = make_array(alloc, classes, *of, next, now, world, waiting)?;
            Ok(Did::Moves(on))
        }
        Row::NewNest { shape, dims } => {
            let on = make_nest(alloc, classes, *shape, *dims, next, now, world, waiting)?;
            Ok(Did::Moves(on))
        }
        Row::Literal(text) => {
            let on = make_text(alloc, classes, text, next, now, world, waiting)?;
            Ok(Did::Moves(on))
        }
        _ => Ok(stuck()),
    }
}

/// One step of a frame whose instruction is this row, with the place behind it.
#[tactic(auto, using(crate::proofs::InPlace::acts_in_place))]
#[inline(always)]
pub fn step_row(
    alloc: Global,
    program: &Program,
    row: &Row,
    next: u32,
    now: &mut Frame,
    world: &mut World,
    waiting: &mut Stack<Waiting>,
) -> Result<Did, WantOfMemory>
    ensures step { IfOk result (λ did. row_step program.now world.old next now.old waiting.old row.now ≡ step_done program.now did world.new now.new waiting.new) }
    ensures kept { IfOk result (λ did. KeptWhenAsks did world.old now.old waiting.old world.new now.new waiting.new) }
    ensures memory { OnErr result (IsTrue (row_step_makes program.now world.old next now.old waiting.old row.now)) }
{
    match act_in_place(program.classes(), row, next, now, world) {
        Some(Act::Goes) => Ok(Did::Moves(Onward::Runs)),
        Some(act) => {
            let on = settle(alloc, program.classes(), act, now, world, waiting)?;
            Ok(Did::Moves(on))
        }
        None => step_out(alloc, program, row, next, now, world, waiting),
    }
}
