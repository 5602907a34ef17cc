//! The last line on the stream of errors.
ghost use Rattle.std.specs.Prelude.{◌≡◌, ◌++◌, IfOk, OnOk, OnErr, string_bytes, codes};
ghost use Rattle.std.specs.Fmt.{decimal};
ghost use Rattle.std.specs.Option.{option_copied};
ghost use Rattle.jc_outside.specs.Told.{Stays};
ghost use Rattle.javag.specs.Closing.{closing, refusal_line, file_name as the_file_name, nth, memory_line, or_empty, line};
ghost use Rattle.javag.specs.Objects.{Closes, PutsPart};

use crate::outcome::Outcome;
use jc_outside::{OutsideError, Paper};
use jc_rules::{Items, Refusal, Text, WantOfMemory, line_of, text_of};
use jc_words::Job;
use std::alloc::Global;

pub const USAGE_LINE: &str =
    "javag: usage: javag [--out DIR] [--run CLASS] [--steps N] FILE.java ... [ARGUMENT ...]\n";

const MEMORY_LINE: &str = "javag: out of memory\n";

/// The name of the source of this number, where the sources count from 1.
fn nth_name(names: &[Text], number: u64) -> &str
    ensures { result.now ≡ nth names.now number }
{
    if number == 0 {
        return "";
    }
    match names.get((number - 1) as usize) {
        Some(name) => name.str(),
        None => "",
    }
}

/// The text of the source of this number.
fn nth_text(texts: &[Items<u8>], number: u64) -> &[u8]
    ensures { result.now ≡ nth texts.now number }
{
    if number == 0 {
        return b"";
    }
    match texts.get((number - 1) as usize) {
        Some(text) => text.slice(),
        None => b"",
    }
}

/// The name of a file, where file 0 is the library's texts.
fn file_name(names: &[Text], number: u64) -> &str
    ensures { result.now ≡ the_file_name names.now number }
{
    if number == 0 {
        "prelude"
    } else {
        nth_name(names, number)
    }
}

/// `NAME:LINE: error NUMBER: TEXT`
fn refusal_line(
    alloc: Global,
    names: &[Text],
    texts: &[Items<u8>],
    refusal: Refusal,
) -> Result<String, WantOfMemory>
    ensures { IfOk result (λ line. string_bytes line ≡ refusal_line names.now texts.now refusal) }
{
    let name = file_name(names, refusal.place.file);
    let line = line_of(nth_text(texts, refusal.place.file), refusal.place.at);
    let number = refusal.rule.number();
    let text = text_of(refusal.rule);
    Ok(format!(in alloc; "{name}:{line}: error {number}: {text}\n")?)
}

/// The last line of a job that ended so, or nothing.
pub fn closing_line(
    alloc: Global,
    job: &Job,
    texts: &[Items<u8>],
    outcome: &Outcome,
) -> Result<String, WantOfMemory>
    ensures { IfOk result (λ line. string_bytes line ≡ closing job.now texts.now outcome.now) }
{
    match outcome {
        Outcome::Done | Outcome::ErrFault | Outcome::Exited { .. } => Ok(String::new(alloc)),
        Outcome::Threw { class } => threw_line(alloc, class.str()),
        Outcome::Usage { .. } => Ok(String::from_str(alloc, USAGE_LINE)?),
        Outcome::Refused { refusal } => refusal_line(alloc, job.files.slice(), texts, *refusal),
        Outcome::StepsReached => steps_line(alloc, job.steps),
        Outcome::WantOfMemory => Ok(String::from_str(alloc, MEMORY_LINE)?),
        Outcome::ShelfFault { file } => {
            let name = nth_name(job.files.slice(), *file);
            let line = format!(in alloc; "javag: cannot read {name}\n")?;
            Ok(line)
        }
        Outcome::ClassFault { written } => written_line(alloc, *written),
        Outcome::OutFault => Ok(String::from_str(alloc, "javag: output failed\n")?),
        Outcome::KeysFault => Ok(String::from_str(alloc, "javag: input failed\n")?),
        Outcome::NoMain => no_main_line(alloc, job.run.as_ref()),
    }
}

fn threw_line(alloc: Global, class: &str) -> Result<String, WantOfMemory>
    ensures { IfOk result (λ l. string_bytes l ≡ line (codes "javag: threw " ++ class.now)) }
{
    Ok(format!(in alloc; "javag: threw {class}\n")?)
}

fn steps_line(alloc: Global, steps: u64) -> Result<String, WantOfMemory>
    ensures { IfOk result (λ l. string_bytes l ≡ line (codes "javag: stopped after " ++ decimal steps ++ codes " steps")) }
{
    Ok(format!(in alloc; "javag: stopped after {steps} steps\n")?)
}

fn written_line(alloc: Global, written: u64) -> Result<String, WantOfMemory>
    ensures { IfOk result (λ l. string_bytes l ≡ line (codes "javag: cannot write after " ++ decimal written ++ codes " class files")) }
{
    Ok(format!(in alloc; "javag: cannot write after {written} class files\n")?)
}

fn no_main_line(alloc: Global, class: Option<&Text>) -> Result<String, WantOfMemory>
    ensures { IfOk result (λ l. string_bytes l ≡ line (codes "javag: no main in " ++ or_empty (option_copied class.entry))) }
{
    let class = match class {
        Some(class) => class.str(),
        None => "",
    };
    Ok(format!(in alloc; "javag: no main in {class}\n")?)
}

/// Puts a line, if there is one. A failure of the stream of errors changes nothing else.
pub fn put_line<E: Paper>(line: &str, err: &mut E) -> Result<(), WantOfMemory>
    ensures ok { OnOk result (Closes (record { before = E.out err.old; after = E.out err.new; faults_before = E.faults err.old; faults_after = E.faults err.new }) line.now) }
    ensures memory { OnErr result (Stays (E.out err.old) (E.out err.new)) }
{
    if line.is_empty() {
        return Ok(());
    }
    match err.put(line.as_bytes()) {
        Ok(()) | Err(OutsideError::Failed) => Ok(()),
        Err(OutsideError::WantOfMemory) => Err(WantOfMemory),
    }
}

/// Puts the line that memory ran out, or some first part of it.
pub fn put_memory_line<E: Paper>(err: &mut E)
    ensures { PutsPart (record { before = E.out err.old; after = E.out err.new; faults_before = E.faults err.old; faults_after = E.faults err.new }) memory_line }
{
    let _ = err.put(MEMORY_LINE.as_bytes());
}
