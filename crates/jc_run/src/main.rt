//! Runs class files: `jc_run MAIN FILE.. -- ARGUMENT..`. The last line on the error output says how the machine ended.
#![tactic(auto)]

use jc_class_in::{ClassFault, read_class};
use jc_class_out::ClassModel;
use jc_core::{Core, Stepped};
use jc_jvm::Ending;
use jc_outside::{FolderShelf, Keys, Paper, Shelf, StdKeys, StdPaper};
use jc_rules::{Items, Stop, Text, WantOfMemory};
use jc_waiting::Onward;
use std::alloc::{AllocError, Global};
use std::process::ExitCode;
use std::{env, io};

/// How many bytes wait before they are put out.
const PENDING: usize = 4096;

/// What the command line says.
#[derive(Drop)]
struct Words {
    main: Text,
    files: Vec<String>,
    arguments: Vec<Text>,
}

fn text(alloc: Global, word: &str) -> Result<Text, AllocError> {
    match Text::copied(alloc, word) {
        Ok(text) => Ok(text),
        Err(WantOfMemory) => Err(AllocError),
    }
}

fn line(rt: &HostRuntime) -> Result<Words, io::Error> {
    let alloc = rt.alloc();
    let mut main = Text::empty();
    let mut files = Vec::new(alloc);
    let mut arguments = Vec::new(alloc);
    let mut behind = false;
    for (n, word) in env::args(rt)?.enumerate() {
        if behind {
            arguments.push(text(alloc, word.as_str())?)?;
        } else if n == 1 {
            main = text(alloc, word.as_str())?;
        } else if word.as_str() == "--" {
            behind = true;
        } else if n > 1 {
            files.push(word)?;
        }
    }
    Ok(Words {
        main,
        files,
        arguments,
    })
}

fn fault_line(alloc: Global, file: &str, fault: ClassFault) -> Result<String, AllocError> {
    match fault {
        ClassFault::Short { at } => format!(in alloc; "{file}: Short at {at}"),
        ClassFault::Magic => format!(in alloc; "{file}: Magic"),
        ClassFault::Version => format!(in alloc; "{file}: Version"),
        ClassFault::Tag { at } => format!(in alloc; "{file}: Tag at {at}"),
        ClassFault::Index { at } => format!(in alloc; "{file}: Index at {at}"),
        ClassFault::Opcode { at } => format!(in alloc; "{file}: Opcode at {at}"),
        ClassFault::Trailing { at } => format!(in alloc; "{file}: Trailing at {at}"),
        ClassFault::Text { at } => format!(in alloc; "{file}: Text at {at}"),
    }
}

/// Adds the class of a file to those that were read, or says what is wrong with the file.
fn add_class<S: Shelf>(
    alloc: Global,
    shelf: &mut S,
    file: &str,
    found: &mut Items<ClassModel>,
) -> Result<Option<String>, AllocError> {
    let mut bytes = Vec::new(alloc);
    if shelf.read(file, &mut bytes).is_err() {
        return Ok(Some(format!(in alloc; "{file}: can't be read")?));
    }
    match read_class(alloc, &bytes) {
        Ok(class) => match found.push(class) {
            Ok(()) => Ok(None),
            Err(WantOfMemory) => Ok(Some(String::from_str(alloc, "out of memory")?)),
        },
        Err(Stop::Refused(fault)) => Ok(Some(fault_line(alloc, file, fault)?)),
        Err(Stop::WantOfMemory) => Ok(Some(String::from_str(alloc, "out of memory")?)),
    }
}

/// Adds the classes of the files, or says what is wrong with one.
fn add_classes(
    rt: &HostRuntime,
    alloc: Global,
    files: &[String],
    found: &mut Items<ClassModel>,
) -> Result<Option<String>, AllocError> {
    let mut shelf = FolderShelf::new(rt);
    for file in files {
        match add_class(alloc, &mut shelf, file.as_str(), found)? {
            Some(fault) => return Ok(Some(fault)),
            None => (),
        }
    }
    Ok(None)
}

/// Puts the bytes that wait.
fn flush<O: Paper>(pending: &mut Vec<u8>, out: &mut O) -> bool {
    let put = out.put(pending).is_ok();
    pending.clear();
    put
}

/// Runs the machine to its end; a word where it can't.
fn run<K: Keys, O: Paper>(
    core: &mut Core,
    pending: &mut Vec<u8>,
    keys: &mut K,
    out: &mut O,
) -> Result<&'static str, WantOfMemory> {
    for steps in 0..u64::MAX {
        match core.advance(u64::MAX)?.last {
            Stepped::Byte(byte) => {
                pending.push(byte)?;
                if pending.len() >= PENDING && !flush(pending, out) {
                    return Ok("no output");
                }
            }
            Stepped::Asks { next } => match keys.next() {
                Ok(byte) => core.answer(next, byte),
                Err(_) => return Ok("no input"),
            },
            Stepped::Went => (),
        }
        if core.ending().is_some() {
            return Ok("");
        }
    }
    Ok("no end")
}

/// A name of a class, with dots.
fn dotted(alloc: Global, core: &Core, class: u64) -> Result<String, AllocError> {
    let mut text = String::new(alloc);
    if let Some(model) = core.program.classes().models().get(class as usize) {
        for unit in model.name.slice() {
            let c = if *unit == 47 {
                '.'
            } else {
                char::from_u32(u32::from(*unit)).unwrap_or('?')
            };
            text.push(c)?;
        }
    }
    Ok(text)
}

/// How the machine ended.
fn ending(alloc: Global, core: &Core) -> Result<String, AllocError> {
    match &core.on {
        Onward::Ends(Ending::Ended) => String::from_str(alloc, "ended"),
        Onward::Ends(Ending::Threw(class)) => {
            let name = dotted(alloc, core, *class)?;
            format!(in alloc; "threw {name}")
        }
        Onward::Ends(Ending::Exited(code)) => format!(in alloc; "exited {code}"),
        Onward::Ends(Ending::Stuck) => String::from_str(alloc, "stuck"),
        Onward::Runs => String::from_str(alloc, "goes on"),
    }
}

fn told<K: Keys, O: Paper>(
    alloc: Global,
    core: &mut Core,
    keys: &mut K,
    out: &mut O,
) -> Result<String, AllocError> {
    let mut pending = Vec::new(alloc);
    let ran = run(core, &mut pending, keys, out);
    if !flush(&mut pending, out) {
        return String::from_str(alloc, "no output");
    }
    match ran {
        Ok("") => ending(alloc, core),
        Ok(word) => String::from_str(alloc, word),
        Err(WantOfMemory) => String::from_str(alloc, "out of memory"),
    }
}

fn run_main(
    rt: &HostRuntime,
    models: Items<ClassModel>,
    line: &Words,
) -> Result<String, AllocError> {
    let alloc = rt.alloc();
    let mut keys = StdKeys::new(rt.stdin());
    let mut out = StdPaper::new(io::writer(rt));
    match Core::load(alloc, models, &line.main, &line.arguments) {
        Ok(core) => {
            let mut core = core;
            told(alloc, &mut core, &mut keys, &mut out)
        }
        Err(Stop::Refused(_)) => String::from_str(alloc, "no main"),
        Err(Stop::WantOfMemory) => String::from_str(alloc, "out of memory"),
    }
}

fn run_line(rt: &HostRuntime, line: &Words) -> Result<String, AllocError> {
    let mut models = Items::new(rt.alloc());
    match add_classes(rt, rt.alloc(), &line.files, &mut models)? {
        Some(fault) => Ok(fault),
        None => run_main(rt, models, line),
    }
}

fn main(rt: HostRuntime) -> io::Result<ExitCode> {
    let line = line(&rt)?;
    let told = run_line(&rt, &line)?;
    eprintln!(rt; "{told}")?;
    Ok(ExitCode::SUCCESS)
}
