//! The items of a body, from left to right: the walk through an item's expression, and then its step.
ghost use Rattle.std.specs.Prelude.{◌≡◌, None, IfOk, OnOk};
ghost use Rattle.std.specs.Option.{option_copied};
ghost use Rattle.jc_overriding.specs.Viewing.{with_dims};
ghost use Rattle.jc_typed.specs.Parts.{Grows};
ghost use Rattle.jc_exprs_nodes_spec.specs.Told.{onward, ran};
ghost use Rattle.jc_exprs_nodes.specs.Walks.{now};
ghost use Rattle.jc_exprs_spec.specs.Typing.{initialised, typing};
ghost use Rattle.jc_exprs_parts_spec.specs.Worlds.{at, written};
ghost use Rattle.jc_stmts_spec.specs.Courses.{Course as Counted, caught_type, each, items_on, label_of, last_type, top_of, types_caught, wanted};
ghost use Rattle.jc_stmts_plan.specs.Seen.{item_seen, rule_of, want_seen};
ghost use Rattle.jc_stmts_course.specs.Nows.{IsCourse, stage};
ghost use Rattle.jc_exprs_locals.specs.Scoped.{locals_of};
ghost use Rattle.jc_stmts_course.specs.Steps.{asked, caught, declared, faulty, filled, gone_over, labelled, left, seen, step_on, steps_on};
ghost use Rattle.jc_stmts_items.specs.Settings.{IsSetting, world_within};

use crate::asking::{asked, elements, filled, typed};
use crate::scenes::{caught_types, declared_type, place_in, scene_in};
use crate::setting::Setting;
use jc_exprs_locals::Locals;
use jc_exprs_worlds::class_file;
use jc_rules::{Items, WantOfMemory};
use jc_stmts_course::{
    Course, Declaring, Naming, ask, catch_types, declare, declare_caught, enter, fault, fill,
    go_over, label, leave,
};
use jc_stmts_plan::{Broken, Item, PlanItem, Want};
use jc_stmts_wants::Wanting;
use jc_tree::{ClassTree, Expr, Ident, Init, TypeTree};
use jc_types::Ty;
use std::alloc::Global;

// What is written of a local beside its name.
#[derive(Clone, Copy)]
struct LocalWritten<'a> {
    ty: &'a TypeTree,
    dims: u32,
    is_final: bool,
}

// The type of a local that is written among others.
fn type_in(
    alloc: Global,
    setting: &Setting,
    locals: &Locals,
    ty: &TypeTree,
    dims: u32,
) -> Result<Ty, WantOfMemory>
    requires { IsSetting setting.now }
    ensures { IfOk result (λ t. t ≡ with_dims dims (written (world_within setting.now (locals_of locals.now)) ty.now)) }
{
    let scene = scene_in(setting, locals);
    declared_type(alloc, &scene, ty, dims)
}

// The types of a catch clause among locals.
fn types_in(
    alloc: Global,
    setting: &Setting,
    locals: &Locals,
    first: &ClassTree,
    more: &[ClassTree],
) -> Result<Items<Ty>, WantOfMemory>
    requires { IsSetting setting.now }
    ensures { IfOk result (λ ts. ts ≡ types_caught (world_within setting.now (locals_of locals.now)) first.now more.now) }
{
    let scene = scene_in(setting, locals);
    caught_types(alloc, &scene, first, more)
}

// A local that is declared.
#[tactic(auto, using(jc_typed::proofs::Growing::growing))]
fn declare_item(
    alloc: Global,
    setting: &Setting,
    course: &mut Course,
    name: &Ident,
    local: &LocalWritten,
) -> Result<(), WantOfMemory>
    requires setting { IsSetting setting.now }
    requires course { IsCourse course.old }
    ensures stage { OnOk result (declared (at (world_within setting.now (stage course.old).locals) name.now.at) name.now.text (with_dims local.now.dims (written (world_within setting.now (stage course.old).locals) local.now.ty.now)) local.now.is_final (stage course.old) ≡ stage course.new) }
    ensures course { OnOk result (IsCourse course.new) }
    ensures grows { OnOk result (Grows course.old.walk.nodes course.new.walk.nodes) }
{
    let ty = type_in(alloc, setting, &course.locals, local.ty, local.dims)?;
    let declaring = Declaring {
        place: place_in(setting, &course.locals, name.at),
        name: name.text.str(),
        ty: &ty,
        is_final: local.is_final,
    };
    declare(alloc, course, &declaring)
}

// The initialiser of the local that was declared last.
fn fill_item(
    alloc: Global,
    setting: &Setting,
    course: &mut Course,
    init: &Init,
) -> Result<(), WantOfMemory>
    requires setting { IsSetting setting.now }
    requires course { IsCourse course.old }
    ensures stage { OnOk result (filled setting.now.table.now (ran (initialised (world_within setting.now (stage course.old).locals) (last_type (stage course.old).locals) init.now) (now course.old.walk)) (stage course.old) ≡ stage course.new) }
    ensures course { OnOk result (IsCourse course.new) }
    ensures grows { OnOk result (Grows course.old.walk.nodes course.new.walk.nodes) }
{
    let operand = filled(alloc, setting, &course.locals, &mut course.walk, init)?;
    fill(alloc, setting.table, course, operand)
}

// An expression by what it is wanted for.
fn ask_item(
    alloc: Global,
    setting: &Setting,
    course: &mut Course,
    expr: &Expr,
    want: Want,
) -> Result<(), WantOfMemory>
    requires setting { IsSetting setting.now }
    requires course { IsCourse course.old }
    ensures stage { OnOk result (asked (want_seen want) (ran (wanted (world_within setting.now (stage course.old).locals) (option_copied setting.now.of_result) expr.now (want_seen want)) (now course.old.walk)) (stage course.old) ≡ stage course.new) }
    ensures course { OnOk result (IsCourse course.new) }
    ensures grows { OnOk result (Grows course.old.walk.nodes course.new.walk.nodes) }
{
    let at = asked(alloc, setting, &course.locals, &mut course.walk, want, expr)?;
    let wanting = Wanting {
        table: setting.table,
        result: setting.of_result,
        file: class_file(setting.names.declared.heads, setting.class.0),
    };
    ask(alloc, &wanting, course, want, at)
}

// A label of the innermost `switch`.
fn label_item(
    alloc: Global,
    setting: &Setting,
    course: &mut Course,
    offset: u32,
    expr: &Expr,
) -> Result<(), WantOfMemory>
    requires setting { IsSetting setting.now }
    requires course { IsCourse course.old }
    ensures stage { OnOk result (labelled (ran (onward (typing (world_within setting.now (stage course.old).locals) None expr.now) (label_of setting.now.table.now (at (world_within setting.now (stage course.old).locals) offset) (top_of (stage course.old).scopes))) (now course.old.walk)) (stage course.old) ≡ stage course.new) }
    ensures course { OnOk result (IsCourse course.new) }
    ensures grows { OnOk result (Grows course.old.walk.nodes course.new.walk.nodes) }
{
    let place = place_in(setting, &course.locals, offset);
    let typed = typed(alloc, setting, &course.locals, &mut course.walk, expr)?;
    label(alloc, setting.table, course, place, typed)
}

// What an enhanced `for` goes over, with the type of its variable.
fn each_item(
    alloc: Global,
    setting: &Setting,
    course: &mut Course,
    over: &Expr,
    ty: &TypeTree,
    dims: u32,
) -> Result<(), WantOfMemory>
    requires setting { IsSetting setting.now }
    requires course { IsCourse course.old }
    ensures stage { OnOk result (gone_over (ran (each (world_within setting.now (stage course.old).locals) over.now (with_dims dims (written (world_within setting.now (stage course.old).locals) ty.now))) (now course.old.walk)) (stage course.old) ≡ stage course.new) }
    ensures course { OnOk result (IsCourse course.new) }
    ensures grows { OnOk result (Grows course.old.walk.nodes course.new.walk.nodes) }
{
    let of = elements(
        alloc,
        setting,
        &course.locals,
        &mut course.walk,
        over,
        ty,
        dims,
    )?;
    go_over(course, of)
}

// The types of a catch clause.
fn catch_item(
    alloc: Global,
    setting: &Setting,
    course: &mut Course,
    offset: u32,
    first: &ClassTree,
    more: &[ClassTree],
) -> Result<(), WantOfMemory>
    requires setting { IsSetting setting.now }
    requires course { IsCourse course.old }
    ensures stage { OnOk result (caught setting.now.table.now (at (world_within setting.now (stage course.old).locals) offset) (types_caught (world_within setting.now (stage course.old).locals) first.now more.now) (stage course.old) ≡ stage course.new) }
    ensures course { OnOk result (IsCourse course.new) }
    ensures grows { OnOk result (Grows course.old.walk.nodes course.new.walk.nodes) }
{
    let types = types_in(alloc, setting, &course.locals, first, more)?;
    let place = place_in(setting, &course.locals, offset);
    catch_types(alloc, setting.table, course, place, types)
}

// The parameter of the catch clause that was met last.
#[tactic(auto, using(jc_typed::proofs::Growing::growing))]
fn parameter_item(
    alloc: Global,
    setting: &Setting,
    course: &mut Course,
    name: &Ident,
    is_final: bool,
) -> Result<(), WantOfMemory>
    requires setting { IsSetting setting.now }
    requires course { IsCourse course.old }
    ensures stage { OnOk result (declared (at (world_within setting.now (stage course.old).locals) name.now.at) name.now.text (caught_type setting.now.table.now (stage course.old).standing.env (stage course.old).caught) is_final (stage course.old) ≡ stage course.new) }
    ensures course { OnOk result (IsCourse course.new) }
    ensures grows { OnOk result (Grows course.old.walk.nodes course.new.walk.nodes) }
{
    let naming = Naming {
        place: place_in(setting, &course.locals, name.at),
        name: name.text.str(),
        is_final,
    };
    declare_caught(alloc, setting.table, course, &naming)
}

// A rule that is broken whatever the types are.
#[tactic(auto, using(jc_typed::proofs::Growing::growing))]
fn fault_item(setting: &Setting, course: &mut Course, broken: Broken, offset: u32)
    requires course { IsCourse course.old }
    ensures stage { faulty (rule_of broken) (at (world_within setting.now (stage course.old).locals) offset) (stage course.old) ≡ stage course.new }
    ensures course { IsCourse course.new }
    ensures grows { Grows course.old.walk.nodes course.new.walk.nodes }
{
    let place = place_in(setting, &course.locals, offset);
    fault(course, broken, place);
}

// The innermost scope ends.
#[tactic(auto, using(jc_typed::proofs::Growing::growing))]
fn leave_item(alloc: Global, course: &mut Course)
    requires { IsCourse course.old }
    ensures stage { left (stage course.old) ≡ stage course.new }
    ensures course { IsCourse course.new }
    ensures grows { Grows course.old.walk.nodes course.new.walk.nodes }
{
    leave(alloc, course);
}

// An item.
#[tactic(auto, using(jc_typed::proofs::Growing::growing, crate::proofs::Within::tables))]
fn go_on(
    alloc: Global,
    setting: &Setting,
    course: &mut Course,
    item: &Item,
) -> Result<(), WantOfMemory>
    requires setting { IsSetting setting.now }
    requires course { IsCourse course.old }
    ensures stage { OnOk result (step_on (world_within setting.now) (option_copied setting.now.of_result) (stage course.old) (item_seen item.now) ≡ stage course.new) }
    ensures course { OnOk result (IsCourse course.new) }
    ensures grows { OnOk result (Grows course.old.walk.nodes course.new.walk.nodes) }
{
    match *item {
        Item::Enter => enter(alloc, course),
        Item::Leave => {
            leave_item(alloc, course);
            Ok(())
        }
        Item::Declare {
            name,
            ty,
            dims,
            is_final,
        } => {
            let local = LocalWritten { ty, dims, is_final };
            declare_item(alloc, setting, course, name, &local)
        }
        Item::Fill(init) => fill_item(alloc, setting, course, init),
        Item::Ask { expr, want } => ask_item(alloc, setting, course, expr, want),
        Item::Label { at, expr } => label_item(alloc, setting, course, at, expr),
        Item::Each { over, ty, dims } => each_item(alloc, setting, course, over, ty, dims),
        Item::Caught { at, first, more } => catch_item(alloc, setting, course, at, first, more),
        Item::Parameter { name, is_final } => {
            parameter_item(alloc, setting, course, name, is_final)
        }
        Item::Fault { broken, at } => {
            fault_item(setting, course, broken, at);
            Ok(())
        }
    }
}

// All items, as the steps of a walk.
#[tactic(auto, using(jc_typed::proofs::Growing::growing))]
fn go_on_through(
    alloc: Global,
    setting: &Setting,
    course: &mut Course,
    items: &[PlanItem],
) -> Result<(), WantOfMemory>
    requires setting { IsSetting setting.now }
    requires course { IsCourse course.old }
    ensures stage { OnOk result (steps_on (world_within setting.now) (option_copied setting.now.of_result) (stage course.old) items.now ≡ stage course.new) }
    ensures course { OnOk result (IsCourse course.new) }
    ensures grows { OnOk result (Grows course.old.walk.nodes course.new.walk.nodes) }
{
    let mut rest = items;
    while let [next, more @ ..] = rest {
        go_on(alloc, setting, course, &next.item)?;
        rest = more;
    }
    Ok(())
}

/// The items of a body from left to right: what was seen of the definition's state before them is seen of its state behind them.
#[tactic(auto, using(jc_stmts_course::proofs::Seeing::steps_seen))]
pub fn go_through(
    alloc: Global,
    setting: &Setting,
    course: &mut Course,
    items: &[PlanItem],
) -> Result<(), WantOfMemory>
    requires setting { IsSetting setting.now }
    requires course { IsCourse course.old }
    ensures stage { OnOk result ((c : Counted) → seen c ≡ stage course.old → seen (items_on (world_within setting.now) (option_copied setting.now.of_result) c items.now) ≡ stage course.new) }
    ensures course { OnOk result (IsCourse course.new) }
    ensures grows { OnOk result (Grows course.old.walk.nodes course.new.walk.nodes) }
{
    go_on_through(alloc, setting, course, items)
}
