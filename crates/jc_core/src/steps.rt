//! Steps of the frame that runs.
ghost use Rattle.std.specs.Prelude.{◌≡◌, ◌≤◌, ◌<◌, ℕ, List, IfOk, IsTrue, OnErr};
ghost use Rattle.jc_core.specs.Memory.{placed_makes};
ghost use Rattle.jc_core.specs.Ran.{told};
ghost use Rattle.jc_jvm.specs.Classes.{placed_at};
ghost use Rattle.jc_jvm.specs.Runs.{run_by, run_of};
ghost use Rattle.jc_jvm.specs.Table.{placed_row};
ghost use Rattle.jc_jvm.specs.Thrown.{Going};
ghost use Rattle.jc_rows.specs.Laid.{row_at};
ghost use Rattle.jc_stepping.specs.Done.{KeptWhenAsks, step_done};

use jc_jvm::{Ending, Frame, Waiting, World};
use jc_rows::Program;
use jc_rules::WantOfMemory;
use jc_stepping::{Did, step_row};
use jc_waiting::{Onward, Stack};
use std::alloc::Global;

/// One step of the frame that runs.
#[tactic(auto, using(crate::proofs::Placed::placed_rules))]
#[inline(always)]
pub fn step_frame(
    alloc: Global,
    program: &Program,
    now: &mut Frame,
    world: &mut World,
    waiting: &mut Stack<Waiting>,
) -> Result<Did, WantOfMemory>
    ensures step { IfOk result (λ did. placed_row program.now world.old now.old waiting.old (placed_at program.now now.old.class now.old.method now.old.at) ≡ step_done program.now did world.new now.new waiting.new) }
    ensures kept { IfOk result (λ did. KeptWhenAsks did world.old now.old waiting.old world.new now.new waiting.new) }
    ensures memory { OnErr result (IsTrue (placed_makes program.now world.old now.old waiting.old (row_at program.now now.old.class now.old.method now.old.at))) }
{
    match program.placed(now.class, now.method, now.at) {
        Some(placed) => step_row(
            alloc,
            program,
            &placed.row,
            placed.next,
            now,
            world,
            waiting,
        ),
        None => Ok(Did::Moves(Onward::Ends(Ending::Stuck))),
    }
}

/// How far steps came, and what the last one did.
#[derive(Clone, Copy, Debug)]
pub struct Advanced {
    /// How many steps are left.
    pub left: u64,
    pub did: Did,
}

/// Steps of the frame that runs, and of those that run after it, at most so many: up to one that shows something or ends the machine.
pub fn advance(
    alloc: Global,
    program: &Program,
    most: u64,
    now: &mut Frame,
    world: &mut World,
    waiting: &mut Stack<Waiting>,
) -> Result<Advanced, WantOfMemory>
    ensures fewer { IfOk result (λ done. done.left ≤ most) }
    ensures goes { IfOk result (λ done. 0 < most → done.left < most) }
    ensures run { IfOk result (λ done. (input : List ℕ) → told (run_of program.now most (Going world.old now.old waiting.old) input) ≡ told (run_by (step_done program.now done.did world.new now.new waiting.new) input (run_of program.now done.left))) }
{
    let mut left = most;
    'steps: while left > 0 {
        let did = step_frame(alloc, program, now, world, waiting)?;
        left -= 1;
        match did {
            Did::Moves(Onward::Runs) => (),
            _ => return Ok(Advanced { left, did }),
        }
    }
    Ok(Advanced {
        left,
        did: Did::Moves(Onward::Runs),
    })
}
