//! The top call.
ghost use Rattle.std.specs.Prelude.{◌≡◌, map, string_bytes, List, ℕ};
ghost use Rattle.jc_words.specs.Job.{IsJob};
ghost use Rattle.javag.specs.Closing.{memory_line};
ghost use Rattle.javag.specs.Objects.{PutsPart};
ghost use Rattle.javag.specs.Causes.{Caused, ClosedAs, UsageClosed};

use crate::closing::{USAGE_LINE, closing_line, put_line, put_memory_line};
use crate::outcome::Outcome;
use crate::sources::read_sources;
use crate::work::work;
use jc_outside::{ClassShelf, Keys, Paper, Shelf};
use jc_rules::{Items, Stop, WantOfMemory};
use jc_words::{Job, UsageFault, read_words};
use std::alloc::Global;

/// Ends for want of memory, with as much of its line as there is room for.
pub fn end_short<E: Paper>(err: &mut E) -> Outcome
    ensures outcome { result ≡ Outcome.WantOfMemory }
    ensures err { PutsPart (record { before = E.out err.old; after = E.out err.new; faults_before = E.faults err.old; faults_after = E.faults err.new }) memory_line }
{
    put_memory_line(err);
    Outcome::WantOfMemory
}

/// Puts the last line of a job that ended so.
fn close<E: Paper>(
    alloc: Global,
    job: &Job,
    texts: &[Items<u8>],
    outcome: Outcome,
    err: &mut E,
) -> Outcome
    ensures { ClosedAs job.now texts.now (record { before = E.out err.old; after = E.out err.new; faults_before = E.faults err.old; faults_after = E.faults err.new }) outcome result }
{
    let Ok(line) = closing_line(alloc, job, texts, &outcome) else {
        return end_short(err);
    };
    match put_line(line.as_str(), err) {
        Ok(()) => outcome,
        Err(WantOfMemory) => end_short(err),
    }
}

/// Refuses words that are no job.
pub fn refuse_words<E: Paper>(fault: UsageFault, err: &mut E) -> Outcome
    ensures { UsageClosed (record { before = E.out err.old; after = E.out err.new; faults_before = E.faults err.old; faults_after = E.faults err.new }) fault result }
{
    match put_line(USAGE_LINE, err) {
        Ok(()) => Outcome::Usage { fault },
        Err(WantOfMemory) => end_short(err),
    }
}

/// Reads the sources of a job, and works through it.
fn drive_job<S: Shelf, C: ClassShelf, K: Keys, O: Paper, E: Paper>(
    alloc: Global,
    job: &Job,
    shelf: &mut S,
    classes: &mut C,
    keys: &mut K,
    out: &mut O,
    err: &mut E,
) -> Outcome
    ensures cause { (words : List (List ℕ)) → IsJob words job.now → Caused (record {
      words = words;
      files = S.files shelf.old;
      shelf_before = S.faults shelf.old;
      shelf_after = S.faults shelf.new;
      classes = record { before = C.pairs classes.old; after = C.pairs classes.new; faults_before = C.faults classes.old; faults_after = C.faults classes.new };
      out = record { before = O.out out.old; after = O.out out.new; faults_before = O.faults out.old; faults_after = O.faults out.new };
      err = record { before = E.out err.old; after = E.out err.new; faults_before = E.faults err.old; faults_after = E.faults err.new };
    }) result }
    ensures keys { keys.new ≡ keys.old }
{
    match read_sources(alloc, shelf, job.files.slice()) {
        Ok(texts) => {
            let outcome = work(alloc, job, texts.slice(), classes, keys, out);
            close(alloc, job, texts.slice(), outcome, err)
        }
        Err(Stop::Refused(unread)) => {
            let outcome = Outcome::ShelfFault { file: unread.file };
            close(alloc, job, &[], outcome, err)
        }
        Err(Stop::WantOfMemory) => end_short(err),
    }
}

/// Checks, compiles and runs what the words ask for: reads the words and the sources, writes class files, runs the program, and
/// puts a last line on `err` where the outcome has one. No key is taken yet, since no program that compiles reads one.
pub fn drive<S: Shelf, C: ClassShelf, K: Keys, O: Paper, E: Paper>(
    alloc: Global,
    words: &[String],
    shelf: &mut S,
    classes: &mut C,
    keys: &mut K,
    out: &mut O,
    err: &mut E,
) -> Outcome
    ensures cause { Caused (record {
      words = map string_bytes words.now;
      files = S.files shelf.old;
      shelf_before = S.faults shelf.old;
      shelf_after = S.faults shelf.new;
      classes = record { before = C.pairs classes.old; after = C.pairs classes.new; faults_before = C.faults classes.old; faults_after = C.faults classes.new };
      out = record { before = O.out out.old; after = O.out out.new; faults_before = O.faults out.old; faults_after = O.faults out.new };
      err = record { before = E.out err.old; after = E.out err.new; faults_before = E.faults err.old; faults_after = E.faults err.new };
    }) result }
    ensures keys { keys.new ≡ keys.old }
{
    match read_words(alloc, words) {
        Ok(job) => drive_job(alloc, &job, shelf, classes, keys, out, err),
        Err(Stop::Refused(fault)) => refuse_words(fault, err),
        Err(Stop::WantOfMemory) => end_short(err),
    }
}
