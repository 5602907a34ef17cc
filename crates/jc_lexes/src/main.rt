//! Says of each file that it is given how many tokens it has, or which lexical rule it breaks and at which offset.
//! The repository's own checks compare that with what `javac` says.
#![tactic(auto)]

use jc_lexer::tokens;
use jc_outside::{FolderShelf, Shelf};
use jc_rules::Stop;
use std::alloc::Global;
use std::{env, io};

/// The most bytes that a source may have.
const MOST_BYTES: usize = 16_777_216;

fn told(alloc: Global, bytes: &[u8]) -> io::Result<String> {
    if bytes.len() > MOST_BYTES {
        return Ok(String::from_str(alloc, "101 at 0")?);
    }
    match tokens(alloc, bytes) {
        Ok(list) => {
            let count = list.len();
            Ok(format!(in alloc; "{count} tokens")?)
        }
        Err(Stop::Refused(fault)) => {
            let rule = fault.rule();
            let at = fault.at();
            Ok(format!(in alloc; "{rule} at {at}")?)
        }
        Err(Stop::WantOfMemory) => Ok(String::from_str(alloc, "out of memory")?),
    }
}

fn main(rt: HostRuntime) -> io::Result<()> {
    let alloc = rt.alloc();
    let mut shelf = FolderShelf::new(&rt);
    for (n, name) in env::args(&rt)?.enumerate() {
        if n > 0 {
            let mut bytes = Vec::new(alloc);
            let line = match shelf.read(name.as_str(), &mut bytes) {
                Ok(()) => told(alloc, &bytes)?,
                Err(_) => String::from_str(alloc, "cannot be read")?,
            };
            println!(rt; "{name}: {line}")?;
        }
    }
    Ok(())
}
