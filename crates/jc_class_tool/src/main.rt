//! Reads class files. It says of each file that it is given `ok`, or which fault it has and where. Behind the word `--write`
//! it writes each class that it reads to the file's name and `.out`. Behind `--fuzz` it changes each byte of a file to each
//! other value, one at a time, and says how often which answer came.
#![tactic(auto)]

mod tally;

use crate::tally::Tally;
use jc_class_in::{ClassFault, read_class};
use jc_class_out::{ClassModel, class_bytes, fits};
use jc_outside::{ClassShelf, FolderClasses, FolderShelf, OutsideError, Shelf};
use jc_rules::Stop;
use std::alloc::{AllocError, Global};
use std::{env, io};

/// What is done with the files from a word on.
#[derive(Clone, Copy, Debug, PartialEq, Eq)]
enum Mode {
    Read,
    Write,
    Fuzz,
}

fn fault_line(alloc: Global, fault: ClassFault) -> Result<String, AllocError> {
    match fault {
        ClassFault::Short { at } => format!(in alloc; "Short at {at}"),
        ClassFault::Magic => String::from_str(alloc, "Magic"),
        ClassFault::Version => String::from_str(alloc, "Version"),
        ClassFault::Tag { at } => format!(in alloc; "Tag at {at}"),
        ClassFault::Index { at } => format!(in alloc; "Index at {at}"),
        ClassFault::Opcode { at } => format!(in alloc; "Opcode at {at}"),
        ClassFault::Trailing { at } => format!(in alloc; "Trailing at {at}"),
        ClassFault::Text { at } => format!(in alloc; "Text at {at}"),
    }
}

/// Writes the class file to that name.
fn write_class<C: ClassShelf>(
    alloc: Global,
    class: &ClassModel,
    name: &str,
    classes: &mut C,
) -> Result<&'static str, OutsideError> {
    if !fits(class) {
        return Ok("ok, but can't be written");
    }
    let bytes = class_bytes(alloc, class)?;
    classes.put(name, bytes.slice())?;
    Ok("ok, written")
}

/// What is said of a class that was read.
fn class_line<C: ClassShelf>(
    alloc: Global,
    mode: Mode,
    class: &ClassModel,
    name: &str,
    classes: &mut C,
) -> Result<&'static str, AllocError> {
    if mode != Mode::Write {
        return Ok("ok");
    }
    let name = format!(in alloc; "{name}.out")?;
    match write_class(alloc, class, name.as_str(), classes) {
        Ok(line) => Ok(line),
        Err(OutsideError::Failed) => Ok("ok, but the file could not be written"),
        Err(OutsideError::WantOfMemory) => Ok("out of memory"),
    }
}

fn told<C: ClassShelf>(
    alloc: Global,
    mode: Mode,
    bytes: &mut [u8],
    name: &str,
    classes: &mut C,
) -> Result<String, AllocError> {
    if mode == Mode::Fuzz {
        return Tally::of(alloc, bytes).line(alloc);
    }
    match read_class(alloc, bytes) {
        Ok(class) => String::from_str(alloc, class_line(alloc, mode, &class, name, classes)?),
        Err(Stop::Refused(fault)) => fault_line(alloc, fault),
        Err(Stop::WantOfMemory) => String::from_str(alloc, "out of memory"),
    }
}

fn main(rt: HostRuntime) -> io::Result<()> {
    let alloc = rt.alloc();
    let mut shelf = FolderShelf::new(&rt);
    let mut classes = FolderClasses::new(&rt);
    let mut mode = Mode::Read;
    for (n, word) in env::args(&rt)?.enumerate() {
        if word.as_str() == "--write" {
            mode = Mode::Write;
        } else if word.as_str() == "--fuzz" {
            mode = Mode::Fuzz;
        } else if n > 0 {
            let mut bytes = Vec::new(alloc);
            let line = match shelf.read(word.as_str(), &mut bytes) {
                Ok(()) => told(alloc, mode, &mut bytes, word.as_str(), &mut classes)?,
                Err(_) => String::from_str(alloc, "cannot be read")?,
            };
            println!(rt; "{word}: {line}")?;
        }
    }
    Ok(())
}
