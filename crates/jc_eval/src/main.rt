//! Reads typed programs in a plain text form, runs each, and prints what the run shows: its output, and then a line with how it
//! stands. A line `@` stands between two programs, and between what they show. A node stands on a line of its own, and names those
//! before it by their numbers in the body:
//!
//!     class BINARY c|i SUPERS FIRST-VARIABLE COUNT          variable-of c|m OWNER BOUNDS
//!     field-of CLASS NAME s|i TYPE                          method-of CLASS NAME m|c|i s|i PARAMS RESULT FIRST-VARIABLE COUNT
//!     select CLASS METHOD BODY                              known NUMBER ..
//!     body TYPES-OF-LOCALS CAPTURED [CALL INITIALISERS REST]    end
//!     run METHOD UNITS main|static [INPUT]
#![tactic(auto)]

mod forms;
mod known;
mod nodes;
mod parts;
mod program;
mod statements;
mod types;
mod words;

use crate::program::Reader;
use jc_evaluate::{evaluate, evaluate_main};
use jc_rules::{Items, Stop};
use jc_running::{Ending, Seen};
use std::alloc::Global;
use std::io;
use std::io::Write;

/// A line that says nothing that can be read.
#[derive(Debug, Drop)]
pub struct Unreadable;

/// What is read, or why there is none.
pub type Read<T> = Result<T, Stop<Unreadable>>;

/// What the run of a program shows.
fn seen_of(alloc: Global, text: &str) -> Read<Option<Seen>> {
    let mut reader = Reader::new(alloc);
    reader.read(text)?;
    let (program, run) = reader.finish()?;
    let mut input = Items::new(alloc);
    for b in run.input.as_str().as_bytes() {
        input.push(*b)?;
    }
    let seen = if run.is_main {
        evaluate_main(alloc, &program, run.method, &[], input, run.units)?
    } else {
        evaluate(alloc, &program, run.method, input, run.units)?
    };
    Ok(seen)
}

fn say_seen(rt: &HostRuntime, seen: Seen) -> io::Result<()> {
    let Seen { output, ending, .. } = seen;
    rt.stdout().write_all(output.slice())?;
    match ending {
        Ending::Going => println!(rt; "|going"),
        Ending::Ended => println!(rt; "|ended"),
        Ending::Threw(name) => println!(rt; "|threw {}", name.str()),
        Ending::Exited(code) => println!(rt; "|exited {code}"),
    }
}

fn say(rt: &HostRuntime, text: &str) -> io::Result<()> {
    match seen_of(rt.alloc(), text) {
        Ok(Some(seen)) => say_seen(rt, seen),
        Ok(None) => println!(rt; "|wrong"),
        Err(Stop::Refused(_)) => println!(rt; "|unreadable"),
        Err(Stop::WantOfMemory) => println!(rt; "|out of memory"),
    }
}

fn main(rt: HostRuntime) -> io::Result<()> {
    let text = io::read_to_string(rt.alloc(), rt.reader())?;
    for program in text.as_str().split('@') {
        say(&rt, program)?;
        println!(&rt; "@")?;
    }
    Ok(())
}
