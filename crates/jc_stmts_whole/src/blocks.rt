//! The statements of a block, gone through and made (JLS 14.2).
ghost use Rattle.std.specs.Prelude.{◌≡◌, ◌<◌, None, IfOk, OnOk, length};
ghost use Rattle.std.specs.Option.{option_copied};
ghost use Rattle.jc_typed.specs.Parts.{Grows, stmt_of};
ghost use Rattle.jc_typed.specs.Trees.{stmt, Block};
ghost use Rattle.jc_stmts_spec.specs.Assembling.{assemble};
ghost use Rattle.jc_stmts_spec.specs.Courses.{Course as Counted, items_on};
ghost use Rattle.jc_stmts_spec.specs.Plans.{enclosed, plan};
ghost use Rattle.jc_stmts_items.specs.Settings.{IsSetting, world_within};
ghost use Rattle.jc_stmts_course.specs.Nows.{IsCourse, stage};
ghost use Rattle.jc_stmts_course.specs.Steps.{entered, left, seen};

use crate::lists::push_stmt;
use jc_rules::{Place, WantOfMemory};
use jc_stmts_assembling::{Assembling, assemble};
use jc_stmts_course::{Course, enter, leave};
use jc_stmts_items::{Setting, go_through};
use jc_stmts_plan::{Jumps, plan};
use jc_tree::Stmt;
use jc_typed::{StmtForm, StmtNode};
use std::alloc::Global;

/// The items of statements in a scope of their own: what was seen of the definition's state before them is seen of its state behind them.
pub fn go_through_block<'a>(
    alloc: Global,
    setting: &Setting,
    course: &mut Course,
    jumps: &Jumps<'a>,
    stmts: &'a [Stmt],
) -> Result<(), WantOfMemory>
    requires setting { IsSetting setting.now }
    requires course { IsCourse course.old }
    ensures stage { OnOk result ((c : Counted) → seen c ≡ stage course.old → seen (items_on (world_within setting.now) (option_copied setting.now.of_result) c (enclosed (plan jumps.now stmts.now))) ≡ stage course.new) }
    ensures course { OnOk result (IsCourse course.new) }
    ensures grows { OnOk result (Grows course.old.walk.nodes course.new.walk.nodes) }
{
    let items = plan(alloc, jumps, stmts)?;
    enter(alloc, course)?;
    go_through(alloc, setting, course, items.slice())?;
    leave(alloc, course);
    Ok(())
}

// The block that the answers make of statements.
#[tactic(auto, using(jc_typed::proofs::Growing::growing, jc_stmts_answers::proofs::Staying::staying))]
fn push_made<'a>(
    scene: Assembling<'_, 'a>,
    course: &mut Course,
    place: Place,
    stmts: &'a [Stmt],
) -> Result<u32, WantOfMemory>
    requires { IsCourse course.old }
    ensures value { IfOk result (λ at. course.old.walk.found ≡ None → stmt_of course.new.walk.nodes at ≡ stmt place (Block (assemble scene.entry.file scene.entry.jumps.now stmts.now (stage course.old).answers).it)) }
    ensures within { IfOk result (λ at. at < length course.new.walk.nodes) }
    ensures stage { OnOk result (stage course.old ≡ stage course.new) }
    ensures course { OnOk result (IsCourse course.new) }
    ensures grows { OnOk result (Grows course.old.walk.nodes course.new.walk.nodes) }
{
    let made = assemble(scene, &mut course.walk.nodes, stmts, course.answers.slice())?;
    let form = StmtForm::Block { stmts: made.at };
    course.walk.nodes.push_stmt(StmtNode { place, form })
}

/// The block that statements make which the walk has gone through; as long as nothing is broken it is the definition's.
pub fn push_block<'a>(
    scene: Assembling<'_, 'a>,
    course: &mut Course,
    place: Place,
    stmts: &'a [Stmt],
) -> Result<u32, WantOfMemory>
    requires { IsCourse course.old }
    ensures value { IfOk result (λ at. (c : Counted) → seen c ≡ stage course.old → course.new.walk.found ≡ None → stmt_of course.new.walk.nodes at ≡ stmt place (Block (assemble scene.entry.file scene.entry.jumps.now stmts.now c.answers).it)) }
    ensures within { IfOk result (λ at. at < length course.new.walk.nodes) }
    ensures stage { OnOk result (stage course.old ≡ stage course.new) }
    ensures course { OnOk result (IsCourse course.new) }
    ensures grows { OnOk result (Grows course.old.walk.nodes course.new.walk.nodes) }
{
    if course.walk.found.is_some() {
        let form = StmtForm::Empty;
        return push_stmt(course, StmtNode { place, form });
    }
    push_made(scene, course, place, stmts)
}
