//! Checks, compiles and runs a Java program.
#![tactic(auto)]

mod closing;
mod drive;
mod outcome;
mod sources;
mod work;

use drive::{drive, end_short, refuse_words};
use jc_outside::{FolderClasses, FolderShelf, StdKeys, StdPaper};
use jc_words::UsageFault;
use outcome::{Outcome, status};
use std::alloc::Global;
use std::process::ExitCode;
use std::{env, io};

/// The words of the command line, or what keeps them from being read.
fn words(rt: &HostRuntime) -> Result<Vec<String>, io::Error> {
    let mut words = Vec::new(rt.alloc());
    for word in env::args(rt)? {
        words.push(word)?;
    }
    Ok(words)
}

/// What the words ask for, with the files, the input and the output of the system.
fn run(rt: &HostRuntime, alloc: Global, words: &[String]) -> Outcome {
    let mut shelf = FolderShelf::new(rt);
    let mut classes = FolderClasses::new(rt);
    let mut keys = StdKeys::new(rt.stdin());
    let mut out = StdPaper::new(io::writer(rt));
    let mut err = StdPaper::new(rt.stderr());
    drive(
        alloc,
        words,
        &mut shelf,
        &mut classes,
        &mut keys,
        &mut out,
        &mut err,
    )
}

fn main(rt: HostRuntime) -> ExitCode {
    let outcome = match words(&rt) {
        Ok(words) => run(&rt, rt.alloc(), words.as_slice()),
        // A word that is no text.
        Err(error) if error.kind() == io::ErrorKind::InvalidData => {
            refuse_words(UsageFault::Line, &mut StdPaper::new(rt.stderr()))
        }
        Err(_) => end_short(&mut StdPaper::new(rt.stderr())),
    };
    ExitCode::from(status(&outcome))
}
