//! How often a reader gave which answer.
ghost use Rattle.std.specs.Prelude.{◌<◌, length};

use jc_class_in::{ClassFault, read_class};
use jc_class_out::ClassModel;
use jc_rules::Stop;
use std::alloc::{AllocError, Global};

/// How often a reader gave which answer.
#[derive(Clone, Copy, Debug, PartialEq, Eq)]
pub struct Tally {
    read: u64,
    short: u64,
    head: u64,
    tag: u64,
    index: u64,
    opcode: u64,
    trailing: u64,
    text: u64,
    memory: u64,
}

fn one_more(count: &mut u64) {
    *count = count.saturating_add(1);
}

impl Tally {
    fn new() -> Tally {
        Tally {
            read: 0,
            short: 0,
            head: 0,
            tag: 0,
            index: 0,
            opcode: 0,
            trailing: 0,
            text: 0,
            memory: 0,
        }
    }

    fn count(&mut self, answer: &Result<ClassModel, Stop<ClassFault>>) {
        match answer {
            Ok(_) => one_more(&mut self.read),
            Err(Stop::WantOfMemory) => one_more(&mut self.memory),
            Err(Stop::Refused(fault)) => self.count_fault(*fault),
        }
    }

    fn count_fault(&mut self, fault: ClassFault) {
        match fault {
            ClassFault::Short { .. } => one_more(&mut self.short),
            ClassFault::Magic | ClassFault::Version => one_more(&mut self.head),
            ClassFault::Tag { .. } => one_more(&mut self.tag),
            ClassFault::Index { .. } => one_more(&mut self.index),
            ClassFault::Opcode { .. } => one_more(&mut self.opcode),
            ClassFault::Trailing { .. } => one_more(&mut self.trailing),
            ClassFault::Text { .. } => one_more(&mut self.text),
        }
    }

    /// Reads the bytes with the one at that place changed to each other value.
    fn count_changes(&mut self, alloc: Global, bytes: &mut [u8], at: usize)
        requires { at < length bytes.old }
    {
        let kept = bytes[at];
        for value in 0..256u16 {
            let value = value as u8;
            if value != kept {
                bytes[at] = value;
                self.count(&read_class(alloc, bytes));
            }
        }
        bytes[at] = kept;
    }

    /// The answers to the bytes with each one changed in turn.
    pub fn of(alloc: Global, bytes: &mut [u8]) -> Tally {
        let mut tally = Tally::new();
        for at in 0..bytes.len() {
            tally.count_changes(alloc, bytes, at);
        }
        tally
    }

    pub fn line(&self, alloc: Global) -> Result<String, AllocError> {
        let Tally {
            read,
            short,
            head,
            tag,
            index,
            opcode,
            trailing,
            text,
            memory,
        } = *self;
        format!(in alloc;
            "{read} read, {short} Short, {head} Magic or Version, {tag} Tag, {index} Index, {opcode} Opcode, {trailing} Trailing, {text} Text, {memory} out of memory"
        )
    }
}
