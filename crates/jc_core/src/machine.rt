//! The machine that runs classes, and what one of its steps did.
ghost use Rattle.std.specs.Prelude.{◌≡◌, ◌≤◌, ◌<◌, ℕ, List, IfOk, None, OnErr, IsTrue};
ghost use Rattle.jc_jvm.specs.Runs.{ending_of, run_by, run_of};
ghost use Rattle.jc_core.specs.Memory.{step_makes};
ghost use Rattle.jc_core.specs.Ran.{told};
ghost use Rattle.jc_jvm.specs.Calls.{byte_read};
ghost use Rattle.jc_jvm.specs.Table.{step_of};
ghost use Rattle.jc_stepping.specs.Done.{step_done};
ghost use Rattle.jc_waiting.specs.Onwards.{state_of};
ghost use Rattle.jc_core.specs.States.{KeptWhenAsking, classes_of, state_in, answered, step_told};

use crate::steps::{advance, step_frame};
use jc_jvm::{Ending, Frame, Value, Waiting, World};
use jc_rows::Program;
use jc_rules::WantOfMemory;
use jc_stepping::Did;
use jc_waiting::{Onward, Stack, go_on_with};
use std::alloc::Global;

/// A machine that runs classes: its program, what all frames share, what waits, the frame that runs, and whether it does or the machine
/// is over.
#[derive(Drop)]
pub struct Core {
    pub alloc: Global,
    pub program: Program,
    pub world: World,
    pub waiting: Stack<Waiting>,
    pub frame: Frame,
    pub on: Onward,
}

/// What a step did.
#[derive(Clone, Copy, Debug, PartialEq, Eq)]
pub enum Stepped {
    /// Nothing is seen of it.
    Went,
    /// This byte goes out.
    Byte(u8),
    /// A byte of the input is asked for. The machine is as it was, and `answer` gives it the byte.
    Asks { next: u32 },
}

fn read(byte: Option<u8>) -> Value
    ensures { result ≡ byte_read byte }
{
    match byte {
        Some(byte) => Value::Whole(i32::from(byte)),
        None => Value::Whole(-1),
    }
}

/// How far steps came that show nothing, and what the last one did.
#[derive(Clone, Copy, Debug)]
pub struct Progress {
    /// How many steps are left.
    pub left: u64,
    pub last: Stepped,
}

impl Core {
    fn settle(&mut self, did: Did) -> Stepped
        ensures classes { classes_of self.new ≡ classes_of self.old }
        ensures kept { KeptWhenAsking result (state_of Onward.Runs self.old.world self.old.frame self.old.waiting) (state_in self.new) }
        ensures step { step_done (classes_of self.old) did self.old.world self.old.frame self.old.waiting ≡ step_told (classes_of self.old) result (state_in self.new) }
    {
        match did {
            Did::Moves(on) => {
                self.on = on;
                Stepped::Went
            }
            Did::Puts { byte, on } => {
                self.on = on;
                Stepped::Byte(byte)
            }
            Did::Asks { next } => {
                self.on = Onward::Runs;
                Stepped::Asks { next }
            }
        }
    }

    /// Steps up to one that is seen or ends the machine, at most so many. After want of memory the machine is to be dropped.
    pub fn advance(&mut self, most: u64) -> Result<Progress, WantOfMemory>
        ensures classes { classes_of self.new ≡ classes_of self.old }
        ensures fewer { IfOk result (λ done. done.left ≤ most) }
        ensures goes { IfOk result (λ done. ending_of (state_in self.old) ≡ None → 0 < most → done.left < most) }
        ensures run { IfOk result (λ done. (input : List ℕ) → told (run_of (classes_of self.old) most (state_in self.old) input) ≡ told (run_by (step_told (classes_of self.old) done.last (state_in self.new)) input (run_of (classes_of self.old) done.left))) }
    {
        match self.on {
            Onward::Runs => {
                let done = advance(
                    self.alloc,
                    &self.program,
                    most,
                    &mut self.frame,
                    &mut self.world,
                    &mut self.waiting,
                )?;
                Ok(Progress {
                    left: done.left,
                    last: self.settle(done.did),
                })
            }
            Onward::Ends(_) => Ok(Progress {
                left: most,
                last: Stepped::Went,
            }),
        }
    }

    /// One step of the instruction table. A machine that is over stays so. Where the step asks for a byte, the machine is as it was, and waits
    /// for `answer`. After want of memory it is to be dropped.
    pub fn step(&mut self) -> Result<Stepped, WantOfMemory>
        ensures classes { classes_of self.new ≡ classes_of self.old }
        ensures memory { OnErr result (IsTrue (step_makes (classes_of self.old) (state_in self.old))) }
        ensures kept { IfOk result (λ stepped. KeptWhenAsking stepped (state_in self.old) (state_in self.new)) }
        ensures step { IfOk result (λ stepped. step_of (classes_of self.old) (state_in self.old) ≡ step_told (classes_of self.old) stepped (state_in self.new)) }
    {
        match self.on {
            Onward::Runs => {
                let did = step_frame(
                    self.alloc,
                    &self.program,
                    &mut self.frame,
                    &mut self.world,
                    &mut self.waiting,
                )?;
                Ok(self.settle(did))
            }
            Onward::Ends(_) => Ok(Stepped::Went),
        }
    }

    /// Gives the machine the byte that its step asked for, or the input's end.
    pub fn answer(&mut self, next: u32, byte: Option<u8>)
        ensures classes { classes_of self.new ≡ classes_of self.old }
        ensures state { state_in self.new ≡ answered (classes_of self.old) next (state_in self.old) byte }
    {
        self.on = match self.on {
            Onward::Runs => go_on_with(
                self.program.classes(),
                read(byte),
                next,
                &mut self.frame,
                &self.world,
                &self.waiting,
            ),
            Onward::Ends(_) => Onward::Ends(Ending::Stuck),
        };
    }
}
