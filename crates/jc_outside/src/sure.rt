//! Outside objects in memory that never fail.
// Forms in memory that never fail.
ghost use Rattle.std.specs.Prelude.{◌≡◌, [], IfSome, IfNone, Some, None};
ghost use Rattle.jc_outside.specs.Told.{file_at};
ghost use Rattle.jc_outside.specs.Memory.{files_of, sure_files, sure_pairs, sure_left, sure_out};

use crate::{ClassShelf, FileEntry, Keys, KeysFault, OutsideError, Paper, Shelf};
use jc_rules::{Items, Text};
use std::alloc::Global;

/// Files in memory. Of two entries of one name the first counts.
#[derive(Debug, Drop)]
pub struct SureShelf {
    files: Items<FileEntry>,
}

impl SureShelf {
    pub fn new(files: Items<FileEntry>) -> SureShelf
        ensures { sure_files result ≡ Some (files_of files) }
    {
        SureShelf { files }
    }
}

fn find<'a>(files: &'a [FileEntry], name: &str) -> Option<&'a FileEntry>
    ensures some { IfSome result (λ file. file_at (files_of files.now) name.now ≡ Some file.now.bytes) }
    ensures none { IfNone result (file_at (files_of files.now) name.now ≡ None) }
{
    for file in files {
        if file.name.str() == name {
            return Some(file);
        }
    }
    None
}

impl Shelf for SureShelf {
    ghost files = { sure_files };

    ghost faults = { λ _. 0 };

    fn read(&mut self, name: &str, into: &mut Vec<u8>) -> Result<(), OutsideError> {
        match find(self.files.slice(), name) {
            Some(file) => {
                into.extend_from_slice(file.bytes.slice())?;
                Ok(())
            }
            None => Err(OutsideError::Failed),
        }
    }
}

/// Class files in memory.
#[derive(Debug, Drop)]
pub struct SureClasses {
    alloc: Global,
    files: Items<FileEntry>,
}

impl SureClasses {
    pub fn new(alloc: Global) -> SureClasses
        ensures { sure_pairs result ≡ Some [] }
    {
        SureClasses {
            alloc,
            files: Items::new(alloc),
        }
    }

    /// The class files, in the order in which they were put.
    pub fn files(&self) -> &[FileEntry]
        ensures { sure_pairs self.now ≡ Some (files_of result.now) }
    {
        self.files.slice()
    }
}

impl ClassShelf for SureClasses {
    ghost pairs = { sure_pairs };

    ghost faults = { λ _. 0 };

    fn put(&mut self, name: &str, bytes: &[u8]) -> Result<(), OutsideError> {
        let name = Text::copied(self.alloc, name)?;
        let bytes = Items::of(bytes.to_vec(self.alloc)?);
        self.files.push(FileEntry { name, bytes })?;
        Ok(())
    }
}

/// Bytes to take, in memory.
#[derive(Debug, Drop)]
pub struct SureKeys {
    bytes: Items<u8>,
    taken: usize,
}

impl SureKeys {
    pub fn new(bytes: Items<u8>) -> SureKeys
        ensures { sure_left result ≡ Some bytes }
    {
        SureKeys { bytes, taken: 0 }
    }
}

impl Keys for SureKeys {
    ghost left = { sure_left };

    ghost faults = { λ _. 0 };

    fn next(&mut self) -> Result<Option<u8>, KeysFault> {
        match self.bytes.slice().get(self.taken) {
            Some(byte) => {
                self.taken += 1;
                Ok(Some(*byte))
            }
            None => Ok(None),
        }
    }
}

/// A paper in memory.
#[derive(Debug, Drop)]
pub struct SurePaper {
    out: Vec<u8>,
}

impl SurePaper {
    pub fn new(alloc: Global) -> SurePaper
        ensures { sure_out result ≡ Some [] }
    {
        SurePaper {
            out: Vec::new(alloc),
        }
    }

    /// The bytes put so far.
    pub fn out(&self) -> &[u8]
        ensures { sure_out self.now ≡ Some result.now }
    {
        self.out.as_slice()
    }
}

impl Paper for SurePaper {
    ghost out = { sure_out };

    ghost faults = { λ _. 0 };

    fn put(&mut self, bytes: &[u8]) -> Result<(), OutsideError> {
        self.out.extend_from_slice(bytes)?;
        Ok(())
    }
}
