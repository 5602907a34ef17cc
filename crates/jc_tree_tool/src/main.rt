//! Tells of source files how high their trees are, where their first tokens stand, whether a copy of each is the same, and whether each
//! is the same as the file before it. The repository's own checks ask it of many sources; the tree crates have no tests of their own,
//! since a test is proved with the drop of every tree.
#![tactic(auto)]

use jc_lexer::lex_all;
use jc_outside::{FolderShelf, Shelf};
use jc_rules::{Items, Refusal, Stop, WantOfMemory};
use jc_syntax::units_of;
use jc_tree::{SourceFile, first_offset_of_file, height};
use jc_tree_copy::copy_file;
use jc_tree_same::same;
use std::alloc::Global;
use std::{env, io};

/// Whether a copy of a file is the same as the file.
fn is_copied(alloc: Global, file: &SourceFile) -> Result<bool, WantOfMemory> {
    let copy = copy_file(alloc, file)?;
    Ok(same(file, &copy))
}

/// A line on a file, and on the file before it.
fn file_line(
    alloc: Global,
    file: &SourceFile,
    before: Option<&SourceFile>,
) -> Result<String, WantOfMemory> {
    let height = height(file);
    let first = first_offset_of_file(file);
    let copied = if is_copied(alloc, file)? {
        "the same"
    } else {
        "another"
    };
    let again = match before {
        Some(before) if same(file, before) => ", as the one before",
        _ => "",
    };
    Ok(format!(in alloc; "height {height}, first token at {first}, its copy is {copied}{again}\n")?)
}

fn file_lines(alloc: Global, files: &[SourceFile]) -> Result<String, WantOfMemory> {
    let mut lines = String::new(alloc);
    let mut before = None;
    for file in files {
        let line = file_line(alloc, file, before)?;
        lines.push_str(line.as_str())?;
        before = Some(file);
    }
    Ok(lines)
}

fn source_lines(alloc: Global, texts: &[Items<u8>]) -> Result<String, Stop<Refusal>> {
    let lists = lex_all(alloc, texts)?;
    let files = units_of(alloc, texts, lists.slice())?;
    Ok(file_lines(alloc, files.slice())?)
}

/// The lines of all sources, or why there are none.
fn told(alloc: Global, texts: &[Items<u8>]) -> Result<String, WantOfMemory> {
    match source_lines(alloc, texts) {
        Ok(lines) => Ok(lines),
        Err(Stop::Refused(refusal)) => {
            let rule = refusal.rule.number();
            let file = refusal.place.file;
            let at = refusal.place.at;
            Ok(format!(in alloc; "{rule} in file {file} at {at}\n")?)
        }
        Err(Stop::WantOfMemory) => Err(WantOfMemory),
    }
}

fn main(rt: HostRuntime) -> io::Result<()> {
    let alloc = rt.alloc();
    let mut shelf = FolderShelf::new(&rt);
    let mut texts = Vec::new(alloc);
    for (n, name) in env::args(&rt)?.enumerate() {
        if n > 0 {
            let mut bytes = Vec::new(alloc);
            if shelf.read(name.as_str(), &mut bytes).is_err() {
                println!(rt; "{name}: cannot be read")?;
            }
            texts.push(Items::of(bytes))?;
        }
    }
    match told(alloc, &texts) {
        Ok(lines) => print!(rt; "{lines}"),
        Err(WantOfMemory) => println!(rt; "out of memory"),
    }
}
