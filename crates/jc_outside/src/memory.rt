//! Outside objects in memory that fail at planned calls.
// Forms in memory that fail at calls given by number.
ghost use Rattle.std.specs.Prelude.{◌≡◌, ◌≢◌, ◌≤◌, ◌⊎◌, ◌↔◌, [], ◌∷◌, ◌++◌, true, take, Some, None, IfOk, OnOk, OnErr, IsErr, IsErrOf, IsSome, IfSome};
ghost use Rattle.jc_outside.specs.Told.{Rose, IsMissing, Gives, Extends, Stays, Gets, GetsPart, Takes};
ghost use Rattle.jc_outside.specs.Memory.{files_of, mem_files, mem_pairs, mem_left, mem_out, fails_next, after_call, next_fail, after_put};

use crate::plan::{PaperPlan, Plan};
use crate::{
    ClassShelf, Fail, FileEntry, Keys, KeysFault, OutsideError, Paper, Shelf, SureClasses,
    SureKeys, SurePaper, SureShelf,
};
use jc_rules::Items;
use std::alloc::Global;

/// Files in memory. The reads whose numbers are listed fail; they count from 1.
#[derive(Debug, Drop)]
pub struct MemShelf {
    inner: SureShelf,
    plan: Plan,
}

impl MemShelf {
    pub fn new(files: Items<FileEntry>, fails: Items<u64>) -> MemShelf
        ensures content { mem_files result ≡ Some (files_of files) }
        ensures plan { result.plan ≡ record { fails = fails; calls = 0; faults = 0 } }
    {
        MemShelf {
            inner: SureShelf::new(files),
            plan: Plan::new(fails),
        }
    }
}

impl Shelf for MemShelf {
    ghost files = { mem_files };

    ghost faults = { λ shelf. shelf.plan.faults };

    fn read(&mut self, name: &str, into: &mut Vec<u8>) -> Result<(), OutsideError>
        ensures files { mem_files self.new ≡ mem_files self.old }
        ensures ok { OnOk result (Gives (mem_files self.old) name.now into.old.items into.new.items) }
        ensures kept { Extends into.old.items into.new.items }
        ensures later { self.old.plan.faults ≤ self.new.plan.faults }
        ensures cause { IsErrOf result OutsideError.Failed →
            Rose self.old.plan.faults self.new.plan.faults ⊎ IsMissing (mem_files self.old) name.now }

        // Which calls fail.
        ensures plan { self.new.plan ≡ after_call self.old.plan }
        ensures planned { fails_next self.old.plan ≡ true → IsErrOf result OutsideError.Failed }
        ensures only { IsErrOf result OutsideError.Failed →
            (fails_next self.old.plan ≡ true) ⊎ IsMissing (mem_files self.old) name.now }
    {
        if self.plan.is_fault() {
            return Err(OutsideError::Failed);
        }
        self.inner.read(name, into)
    }
}

/// Class files in memory. The puts whose numbers are listed fail; they count from 1.
#[derive(Debug, Drop)]
pub struct MemClasses {
    inner: SureClasses,
    plan: Plan,
}

impl MemClasses {
    pub fn new(alloc: Global, fails: Items<u64>) -> MemClasses
        ensures content { mem_pairs result ≡ Some [] }
        ensures plan { result.plan ≡ record { fails = fails; calls = 0; faults = 0 } }
    {
        MemClasses {
            inner: SureClasses::new(alloc),
            plan: Plan::new(fails),
        }
    }

    /// The class files, in the order in which they were put.
    pub fn files(&self) -> &[FileEntry]
        ensures { mem_pairs self.now ≡ Some (files_of result.now) }
    {
        self.inner.files()
    }
}

impl ClassShelf for MemClasses {
    ghost pairs = { mem_pairs };

    ghost faults = { λ classes. classes.plan.faults };

    fn put(&mut self, name: &str, bytes: &[u8]) -> Result<(), OutsideError>
        ensures ok { OnOk result (Gets (mem_pairs self.old) ((name.now, bytes.now) ∷ []) (mem_pairs self.new)) }
        ensures err { OnErr result (Stays (mem_pairs self.old) (mem_pairs self.new)) }
        ensures later { self.old.plan.faults ≤ self.new.plan.faults }
        ensures cause { IsErrOf result OutsideError.Failed → Rose self.old.plan.faults self.new.plan.faults }

        // Which calls fail.
        ensures plan { self.new.plan ≡ after_call self.old.plan }
        ensures planned { (fails_next self.old.plan ≡ true) ↔ IsErrOf result OutsideError.Failed }
    {
        if self.plan.is_fault() {
            return Err(OutsideError::Failed);
        }
        self.inner.put(name, bytes)
    }
}

/// Bytes to take, in memory. The calls whose numbers are listed fail; they count from 1.
#[derive(Debug, Drop)]
pub struct MemKeys {
    inner: SureKeys,
    plan: Plan,
}

impl MemKeys {
    pub fn new(bytes: Items<u8>, fails: Items<u64>) -> MemKeys
        ensures content { mem_left result ≡ Some bytes }
        ensures plan { result.plan ≡ record { fails = fails; calls = 0; faults = 0 } }
    {
        MemKeys {
            inner: SureKeys::new(bytes),
            plan: Plan::new(fails),
        }
    }
}

impl Keys for MemKeys {
    ghost left = { mem_left };

    ghost faults = { λ keys. keys.plan.faults };

    fn next(&mut self) -> Result<Option<u8>, KeysFault>
        ensures ok { IfOk result (λ byte. Takes (mem_left self.old) byte (mem_left self.new)) }
        ensures err { OnErr result (Stays (mem_left self.old) (mem_left self.new)) }
        ensures later { self.old.plan.faults ≤ self.new.plan.faults }
        ensures cause { OnErr result (Rose self.old.plan.faults self.new.plan.faults) }

        // Which calls fail.
        ensures plan { self.new.plan ≡ after_call self.old.plan }
        ensures planned { (fails_next self.old.plan ≡ true) ↔ IsErr result }
    {
        if self.plan.is_fault() {
            return Err(KeysFault);
        }
        self.inner.next()
    }
}

/// A paper in memory. The puts that are listed fail; they count from 1.
#[derive(Debug, Drop)]
pub struct MemPaper {
    inner: SurePaper,
    plan: PaperPlan,
}

impl MemPaper {
    pub fn new(alloc: Global, fails: Items<Fail>) -> MemPaper
        ensures content { mem_out result ≡ Some [] }
        ensures plan { result.plan ≡ record { fails = fails; calls = 0; faults = 0 } }
    {
        MemPaper {
            inner: SurePaper::new(alloc),
            plan: PaperPlan::new(fails),
        }
    }

    /// The bytes put so far.
    pub fn out(&self) -> &[u8]
        ensures { mem_out self.now ≡ Some result.now }
    {
        self.inner.out()
    }
}

impl Paper for MemPaper {
    ghost out = { mem_out };

    ghost faults = { λ paper. paper.plan.faults };

    fn put(&mut self, bytes: &[u8]) -> Result<(), OutsideError>
        ensures ok { OnOk result (Gets (mem_out self.old) bytes.now (mem_out self.new)) }
        ensures failed { IsErrOf result OutsideError.Failed → GetsPart (mem_out self.old) bytes.now (mem_out self.new) }
        ensures memory { IsErrOf result OutsideError.WantOfMemory → Stays (mem_out self.old) (mem_out self.new) }
        ensures later { self.old.plan.faults ≤ self.new.plan.faults }
        ensures cause { IsErrOf result OutsideError.Failed → Rose self.old.plan.faults self.new.plan.faults }

        // Which calls fail, and what they put.
        ensures plan { self.new.plan ≡ after_put self.old.plan }
        ensures planned { IfSome (next_fail self.old.plan) (λ fail. result ≢ Err OutsideError.WantOfMemory →
            (result ≡ Err OutsideError.Failed) × Gets (mem_out self.old) (take fail.first bytes.now) (mem_out self.new)) }
        ensures only { IsErrOf result OutsideError.Failed → IsSome (next_fail self.old.plan) }
    {
        match self.plan.fault() {
            Some(fail) => {
                let first = bytes.len().min(fail.first as usize);
                self.inner.put(&bytes[..first])?;
                Err(OutsideError::Failed)
            }
            None => self.inner.put(bytes),
        }
    }
}
