//! Asks the calls on types: it reads tables of class heads and questions from its input and prints an answer a line. The
//! repository's own checks compare these with what `javac` says of the same classes and types.
//!
//! A line `table` begins a table with the class `Object`, which its head lines add to:
//!
//!     class NAME PARAMETER .. : SUPERTYPE ..
//!     final NAME PARAMETER .. : SUPERTYPE ..
//!     interface NAME PARAMETER .. : SUPERTYPE ..
//!     variable PARAMETER
//!     method LABEL CLASS NAME MODIFIER .. fixed PARAMETER .. : RESULT TYPE ..
//!
//! A parameter is a name that no other line declares, with its bound behind a colon if it has one, as `E:Number`. The
//! superclass comes first, and is Object for an interface. A final class is one that none extends. A variable is one of a
//! method. A method has a label that questions name it by, stands behind its class, and takes as many arguments as it has
//! parameters, or with `variable` for `fixed` any number; of its modifiers public, protected, private, abstract and static
//! are known, and `constructor` makes it one. Behind a word `throws` stand the types that it throws. Each line after them asks:
//!
//!     below TYPE TYPE        contained ARGUMENT ARGUMENT      view TYPE CLASS
//!     capture TYPE           glb TYPE ..                      erasure TYPE
//!     wellformed TYPE        formed TYPE                      faults TYPE
//!     size TYPE              same TYPE TYPE                   reifiable TYPE
//!     element TYPE           inside TYPE                      lub TYPE ..
//!     repair TYPE            distinct TYPE TYPE               assign TYPE TYPE [CONSTANT]
//!     invoke TYPE TYPE       cast TYPE TYPE
//!     infer PHASE VARIABLE .. : RESULT PARAMETER .. : ARGUMENT .. : TARGET
//!     call EXPLICIT .. : ARGUMENT .. : TARGET | MEMBER | ..
//!     means TYPE NAME EXPLICIT .. : ARGUMENT .. : TARGET
//!     creates TYPE EXPLICIT .. : ARGUMENT .. : TARGET
//!     members TYPE NAME      overrides LABEL LABEL            hides LABEL LABEL
//!     select CLASS LABEL     bridges CLASS
//!
//! Types have no spaces. `+T` is `? extends T`, `-T` is `? super T`, `{A&B}` an intersection, `#0` the first variable that a
//! capture of this table made, and `null` the null type. A phase is `subtyping`, `invocation` or `variable`, a result a type
//! or `void`; a target may be left out. The type arguments that a call writes stand before its arguments. A member is `fixed`
//! or `variable`, as it takes as many arguments as parameters or any number, then `VARIABLE .. : RESULT PARAMETER ..`; its
//! number is counted from 0. The members of a type are told by their labels, type parameters, results and parameters, and the
//! bridges of a class by the labels of the methods that they stand for and call. A call
//! `means` a member of a type by its name, and one that `creates` a constructor, of a class behind which `<>` stands by a
//! diamond: behind bars stand the types to which the arguments go, the result that isn't erased, and the thrown types.
#![tactic(auto)]

mod asking;
mod calling;
mod conversions;
mod having;
mod heads;
mod inferring;
mod methods;
mod names;
mod types;
mod words;

use crate::asking::Asker;
use jc_rules::Stop;
use std::alloc::{AllocError, Global};
use std::io;

/// A line that says nothing that can be read: another form, or a name that isn't declared.
#[derive(Debug, Drop)]
pub struct Unreadable;

/// What is read, or why there is none.
pub type Read<T> = Result<T, Stop<Unreadable>>;

/// The lines of a table, from its first on, and the number of the lines after it.
fn put_answers(alloc: Global, out: &mut String, text: &str) -> Result<(), AllocError> {
    let mut lines: Vec<&str> = Vec::new(alloc);
    for line in text.lines() {
        if line == "table" && !lines.is_empty() {
            put_table(alloc, out, lines.as_slice())?;
            lines.clear();
        }
        lines.push(line)?;
    }
    put_table(alloc, out, lines.as_slice())
}

/// The answers to the questions that a table's lines ask.
fn put_table(alloc: Global, out: &mut String, lines: &[&str]) -> Result<(), AllocError> {
    match Asker::of(alloc, lines) {
        Ok(mut asker) => {
            for line in lines {
                put_line(alloc, out, &mut asker, line)?;
            }
            Ok(())
        }
        Err(Stop::Refused(_)) => out.push_str("unreadable heads\n"),
        Err(Stop::WantOfMemory) => Err(AllocError),
    }
}

/// The answer to a line that asks, and `table` for the line that begins a table.
fn put_line(
    alloc: Global,
    out: &mut String,
    asker: &mut Asker,
    line: &str,
) -> Result<(), AllocError> {
    if line == "table" {
        return out.push_str("table\n");
    }
    if heads::is_head(line) {
        return Ok(());
    }
    match asker.answer(alloc, line) {
        Ok(answer) => out.push_str(answer.as_str())?,
        Err(Stop::Refused(_)) => out.push_str("unreadable")?,
        Err(Stop::WantOfMemory) => out.push_str("out of memory")?,
    }
    out.push_str("\n")
}

fn main(rt: HostRuntime) -> io::Result<()> {
    let alloc = rt.alloc();
    let text = io::read_to_string(alloc, rt.reader())?;
    let mut out = String::new(alloc);
    put_answers(alloc, &mut out, text.as_str())?;
    print!(rt; "{out}")
}
