//! Runs of the machine.
ghost use Rattle.std.specs.Prelude.{◌≡◌, ◌≢◌, ◌≤◌, [], ◌∷◌, ◌++◌, ℕ, List, IfOk, OnErr, true, false};
ghost use Rattle.jc_outside.specs.Told.{Rose, Stays, Gets, GetsPart};
ghost use Rattle.jc_machine.specs.Table.{state_of, classes_of};
ghost use Rattle.jc_machine.specs.Runs.{run_of, RunsAs, turn_of};

use crate::act::Turn;
use crate::{Machine, Ran, Stepped};
use jc_outside::{Keys, OutsideError, Paper};
use jc_rules::WantOfMemory;

// How many bytes wait before they are put out.
const PENDING: usize = 4096;

fn turn_after(stepped: Stepped) -> Turn
    ensures { result ≡ turn_of stepped }
{
    match stepped {
        Stepped::Went => Turn::Goes,
        Stepped::Byte(byte) => Turn::Puts(byte),
        Stepped::Ended => Turn::Ends(Ran::Ended),
        Stepped::Threw { class } => Turn::Ends(Ran::Threw { class }),
        Stepped::Exited { code } => Turn::Ends(Ran::Exited { code }),
        Stepped::KeysFault => Turn::Ends(Ran::KeysFault),
        Stepped::Stuck => Turn::Ends(Ran::Stuck),
    }
}

// Puts the bytes that wait, and tells whether the paper took them.
fn flush<O: Paper>(pending: &mut Vec<u8>, out: &mut O) -> Result<bool, WantOfMemory>
    ensures yes { result ≡ Ok true → Gets (O.out out.old) pending.old.items (O.out out.new) × (pending.new.items ≡ []) }
    ensures no { result ≡ Ok false → GetsPart (O.out out.old) pending.old.items (O.out out.new) × Rose (O.faults out.old) (O.faults out.new) }
    ensures memory { OnErr result (Stays (O.out out.old) (O.out out.new)) }
    ensures later { O.faults out.old ≤ O.faults out.new }
{
    match out.put(pending) {
        Ok(()) => {
            pending.clear();
            Ok(true)
        }
        Err(OutsideError::Failed) => Ok(false),
        Err(OutsideError::WantOfMemory) => Err(WantOfMemory),
    }
}

// Adds a byte to those that wait, puts them where they are many, and tells whether the paper took them.
fn put_byte<O: Paper>(pending: &mut Vec<u8>, byte: u8, out: &mut O) -> Result<bool, WantOfMemory>
    ensures yes { result ≡ Ok true → (put : List ℕ) × Gets (O.out out.old) put (O.out out.new) × (pending.old.items ++ byte ∷ [] ≡ put ++ pending.new.items) }
    ensures no { result ≡ Ok false → GetsPart (O.out out.old) (pending.old.items ++ byte ∷ []) (O.out out.new) × Rose (O.faults out.old) (O.faults out.new) }
    ensures memory { OnErr result (Stays (O.out out.old) (O.out out.new)) }
    ensures later { O.faults out.old ≤ O.faults out.new }
{
    pending.push(byte)?;
    if pending.len() < PENDING {
        return Ok(true);
    }
    flush(pending, out)
}

// Puts the last bytes that wait.
fn finish<O: Paper>(pending: &mut Vec<u8>, out: &mut O, ran: Ran) -> Result<Ran, WantOfMemory>
    requires { ran ≢ Ran.OutFault }
    ensures all { IfOk result (λ r. r ≢ Ran.OutFault → Gets (O.out out.old) pending.old.items (O.out out.new) × (r ≡ ran)) }
    ensures fault { result ≡ Ok Ran.OutFault → Rose (O.faults out.old) (O.faults out.new) }
    ensures part { GetsPart (O.out out.old) pending.old.items (O.out out.new) }
    ensures later { O.faults out.old ≤ O.faults out.new }
{
    if flush(pending, out)? {
        Ok(ran)
    } else {
        Ok(Ran::OutFault)
    }
}

impl Machine {
    /// At most so many steps, with what they put out. The bytes are put where 4,096 of them wait, and at the end.
    /// After `OutFault` and after want of memory the machine is to be dropped.
    pub fn run_for<K: Keys, O: Paper>(
        &mut self,
        steps: u64,
        keys: &mut K,
        out: &mut O,
    ) -> Result<Ran, WantOfMemory>
        // Without a fault, the run is that of the table, and all that it puts out was put.
        ensures ran { IfOk result (λ ran. ran ≢ Ran.OutFault → RunsAs (run_of (classes_of self.old) steps (state_of self.old)) ran (state_of self.new)) }
        ensures all { IfOk result (λ ran. ran ≢ Ran.OutFault →
            Gets (O.out out.old) (run_of (classes_of self.old) steps (state_of self.old)).output (O.out out.new)) }

        // After any stop the paper got a first part of what the run puts out.
        ensures part { GetsPart (O.out out.old) (run_of (classes_of self.old) steps (state_of self.old)).output (O.out out.new) }
        ensures fault { result ≡ Ok Ran.OutFault → Rose (O.faults out.old) (O.faults out.new) }
        ensures later { O.faults out.old ≤ O.faults out.new }
        ensures classes { classes_of self.new ≡ classes_of self.old }

        // No row reads a key yet.
        ensures keys { keys.new ≡ keys.old }
    {
        let mut pending = Vec::new(self.alloc);
        for _ in 0..steps {
            match turn_after(self.step(keys)?) {
                Turn::Goes => (),
                Turn::Puts(byte) => {
                    if !put_byte(&mut pending, byte, out)? {
                        return Ok(Ran::OutFault);
                    }
                }
                Turn::Ends(ran) => return finish(&mut pending, out, ran),
            }
        }
        finish(&mut pending, out, Ran::StepsReached)
    }
}
