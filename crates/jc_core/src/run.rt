//! Runs.
ghost use Rattle.std.specs.Prelude.{◌≡◌, ◌<◌, IfOk, IfSome, length, slice_get};
ghost use Rattle.jc_jvm.specs.Runs.{ending_of, run_of};
ghost use Rattle.jc_core.specs.Ran.{told};
ghost use Rattle.jc_core.specs.States.{classes_of, state_in};

use crate::{Core, Stepped};
use jc_jvm::Ending;
use jc_rules::{Items, WantOfMemory};
use jc_waiting::Onward;

/// What a run put out, and how many bytes of its input it took.
#[derive(Debug, Drop)]
pub struct Ran {
    pub output: Items<u8>,
    pub taken: usize,
}

fn byte_at(input: &[u8], at: usize) -> Option<u8>
    ensures value { result ≡ slice_get input.now at }
    ensures within { IfSome result (λ byte. at < length input.now) }
{
    if at < input.len() {
        Some(input[at])
    } else {
        None
    }
}

impl Core {
    /// How the machine is over; None where it goes on.
    pub fn ending(&self) -> Option<Ending>
        ensures { result ≡ ending_of (state_in self.now) }
    {
        match &self.on {
            Onward::Runs => None,
            Onward::Ends(ending) => Some(*ending),
        }
    }

    /// So many steps on this input; a machine that is over takes no more. After want of memory it is to be dropped.
    pub fn run_for(&mut self, steps: u64, input: &[u8]) -> Result<Ran, WantOfMemory>
        ensures classes { classes_of self.new ≡ classes_of self.old }
        ensures run { IfOk result (λ ran. told (run_of (classes_of self.old) steps (state_in self.old) input.now) ≡ record { output = ran.output; taken = ran.taken; after = state_in self.new }) }
    {
        let mut output = Items::new(self.alloc);
        let mut taken = 0;
        let mut left = steps;
        'steps: while left > 0 {
            if self.ending().is_some() {
                return Ok(Ran { output, taken });
            }
            let progress = self.advance(left)?;
            left = progress.left;
            match progress.last {
                Stepped::Went => (),
                Stepped::Byte(byte) => output.push(byte)?,
                Stepped::Asks { next } => match byte_at(input, taken) {
                    Some(byte) => {
                        self.answer(next, Some(byte));
                        taken += 1;
                    }
                    None => self.answer(next, None),
                },
            }
        }
        Ok(Ran { output, taken })
    }
}
