//! The exception tables of methods (JVMS 2.10).
ghost use Rattle.std.specs.Prelude.{◌≡◌};
ghost use Rattle.jc_jvm.specs.Thrown.{catches as row_catches, covers as row_covers, handler_of};
ghost use Rattle.jc_calls.specs.Handled.{handled_at};

use crate::code_of;
use jc_class_out::Handler;
use jc_heap::{Classes, class_named};
use jc_jvm::Frame;

fn catches(classes: &Classes, thrown: u64, row: &Handler) -> bool
    ensures { result ≡ row_catches classes.now thrown row.now.class }
{
    match &row.class {
        Some(name) => match class_named(classes.named(), name.slice()) {
            Some(wanted) => classes.is_class_below(thrown, wanted),
            None => false,
        },
        None => true,
    }
}

fn covers(at: u32, row: &Handler) -> bool
    ensures { result ≡ row_covers at row.now }
{
    row.from <= at && at < row.to
}

fn place_for(classes: &Classes, thrown: u64, at: u32, rows: &[Handler]) -> Option<u32>
    ensures { result ≡ handled_at classes.now thrown at rows.now }
{
    for row in rows {
        if covers(at, row) && catches(classes, thrown, row) {
            return Some(row.at);
        }
    }
    None
}

/// Where an exception of this class that comes up in a frame is handled: by the first row that covers the frame's place and catches it.
pub fn handler_for(classes: &Classes, thrown: u64, now: &Frame) -> Option<u32>
    ensures { result ≡ handler_of classes.now thrown now.now }
{
    match code_of(classes.models(), now.class, now.method) {
        Some(code) => place_for(classes, thrown, now.at, code.handlers.slice()),
        None => None,
    }
}
