//! Tells what sources declare, one declaration a line, as the stage of names sees it. The repository's own checks ask it; it has no
//! contracts of its own.
#![tactic(auto)]

mod lines;
mod reading;

use jc_heads::heads;
use jc_outside::{FolderShelf, Shelf};
use jc_rules::{Items, Refusal, Stop, WantOfMemory};
use lines::head_lines;
use reading::source_units;
use std::alloc::Global;
use std::{env, io};

fn source_lines(alloc: Global, texts: &[Items<u8>]) -> Result<String, Stop<Refusal>> {
    let units = source_units(alloc, texts)?;
    let heads = heads(alloc, units.slice())?;
    Ok(head_lines(alloc, &heads)?)
}

/// The lines of all sources, or why there are none.
fn told(alloc: Global, texts: &[Items<u8>]) -> Result<String, WantOfMemory> {
    match source_lines(alloc, texts) {
        Ok(lines) => Ok(lines),
        Err(Stop::Refused(refusal)) => {
            let rule = refusal.rule.number();
            let file = refusal.place.file;
            let at = refusal.place.at;
            Ok(format!(in alloc; "{rule} in file {file} at {at}\n")?)
        }
        Err(Stop::WantOfMemory) => Err(WantOfMemory),
    }
}

fn main(rt: HostRuntime) -> io::Result<()> {
    let alloc = rt.alloc();
    let mut shelf = FolderShelf::new(&rt);
    let mut texts = Vec::new(alloc);
    for (n, name) in env::args(&rt)?.enumerate() {
        if n > 0 {
            let mut bytes = Vec::new(alloc);
            if shelf.read(name.as_str(), &mut bytes).is_err() {
                println!(rt; "{name}: cannot be read")?;
            }
            texts.push(Items::of(bytes))?;
        }
    }
    match told(alloc, &texts) {
        Ok(lines) => print!(rt; "{lines}"),
        Err(WantOfMemory) => println!(rt; "out of memory"),
    }
}
