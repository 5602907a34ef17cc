//! The machine, and how it is over.
ghost use Rattle.std.specs.Prelude.{◌≡◌, false, IfOk, IsOk, None};
ghost use Rattle.jc_machine.specs.Names.{placed_at};
ghost use Rattle.jc_machine.specs.Table.{step_of, state_of, classes_of, told, is_threw, move_of, act_if};

use crate::act::{Act, perform};
use crate::{Active, Program, Stack};
use jc_outside::Keys;
use jc_rules::{Text, WantOfMemory};
use std::alloc::Global;

/// How a machine is over.
#[derive(Clone, Debug, Drop, PartialEq, Eq)]
pub enum Ending {
    /// Its first method returned.
    Ended,
    /// Nothing caught an exception of this class, whose name has dots.
    Threw(Text),
    Exited(i32),
    /// The table allows nothing.
    Stuck,
}

/// What a step did.
#[derive(Debug, Drop, PartialEq, Eq)]
pub enum Stepped {
    Went,
    /// This byte goes out.
    Byte(u8),
    Ended,
    Threw { class: Text },
    Exited { code: i32 },
    /// A byte could not be read.
    KeysFault,
    Stuck,
}

/// How a run of the machine ended.
#[derive(Debug, Drop, PartialEq, Eq)]
pub enum Ran {
    /// All steps were taken, and the machine goes on.
    StepsReached,
    Ended,
    Threw { class: Text },
    Exited { code: i32 },
    KeysFault,
    /// The bytes could not be put out.
    OutFault,
    Stuck,
}

/// A machine that runs classes: its program, the frame that runs, the frames that wait for it, and its ending, if it is over.
#[derive(Debug, Drop)]
pub struct Machine {
    pub alloc: Global,
    pub program: Program,
    pub now: Active,
    pub callers: Stack<Active>,
    pub over: Option<Ending>,
}

// What a step answers once the machine is over so.
fn answer(ending: &Ending) -> Result<Stepped, WantOfMemory>
    ensures told { IfOk result (λ stepped. stepped ≡ told ending.now) }
    ensures memory { is_threw (told ending.now) ≡ false → IsOk result }
{
    match ending {
        Ending::Ended => Ok(Stepped::Ended),
        Ending::Threw(class) => {
            let class = class.clone()?;
            Ok(Stepped::Threw { class })
        }
        Ending::Exited(code) => Ok(Stepped::Exited { code: *code }),
        Ending::Stuck => Ok(Stepped::Stuck),
    }
}

impl Machine {
    /// One instruction of the table. It takes no memory but for an answer that something was thrown; no row makes anything yet.
    /// A machine that is over answers the same again. After want of memory it is to be dropped.
    pub fn step<K: Keys>(&mut self, _keys: &mut K) -> Result<Stepped, WantOfMemory>
        ensures step { IfOk result (λ stepped. step_of (classes_of self.old) (state_of self.old) ≡ (stepped, state_of self.new)) }
        ensures memory { is_threw (step_of (classes_of self.old) (state_of self.old)).0 ≡ false → IsOk result }
        ensures classes { classes_of self.new ≡ classes_of self.old }

        // No row reads a key yet.
        ensures keys { _keys.new ≡ _keys.old }
    {
        match &self.over {
            Some(ending) => answer(ending),
            None => {
                let act = self.act_at_place();
                self.settle(act)
            }
        }
    }

    // The row at the frame's place.
    fn act_at_place(&mut self) -> Act
        ensures act { act_if (placed_at (classes_of self.old) self.old.now.class self.old.now.method self.old.now.at) self.old.now self.old.callers
            ≡ move_of result self.new.now self.new.callers }
        ensures classes { classes_of self.new ≡ classes_of self.old }
        ensures over { self.new.over ≡ self.old.over }
    {
        let now = &mut self.now;
        match self.program.placed(now.class, now.method, now.at) {
            Some(placed) => {
                now.at = placed.next;
                perform(placed.row, now, &mut self.callers)
            }
            None => Act::Ends(Ending::Stuck),
        }
    }

    // Keeps the ending, if there is one.
    fn settle(&mut self, act: Act) -> Result<Stepped, WantOfMemory>
        requires { self.old.over ≡ None }
        ensures step { IfOk result (λ stepped. move_of act self.old.now self.old.callers ≡ (stepped, state_of self.new)) }
        ensures memory { is_threw (move_of act self.old.now self.old.callers).0 ≡ false → IsOk result }
        ensures classes { classes_of self.new ≡ classes_of self.old }
    {
        match act {
            Act::Went => Ok(Stepped::Went),
            Act::Byte(byte) => Ok(Stepped::Byte(byte)),
            Act::Ends(ending) => {
                let stepped = answer(&ending)?;
                self.over = Some(ending);
                Ok(stepped)
            }
        }
    }
}
