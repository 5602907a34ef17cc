//! Sources and class files in the folders of the system.
// Adapters over the files of a file system. They tell no content.
ghost use Rattle.std.specs.Prelude.{◌≡◌, ◌≤◌, ◌⊎◌, None, IsErrOf, is_ok, if◌then◌else◌};
ghost use Rattle.jc_outside.specs.Told.{Rose, risen, Extends};

use crate::streams::{count_after, read_all, write_all};
use crate::{ClassShelf, OutsideError, Shelf};
use std::fs;
use std::path::Path;
use std::rt::Files;

/// The files of a file system, by their paths.
#[derive(Drop)]
pub struct FolderShelf<R: Files> {
    rt: R,
    faults: u64,
}

impl<R: Files> FolderShelf<R> {
    pub fn new(rt: R) -> FolderShelf<R>
        ensures { result ≡ record { rt = rt; faults = 0 } }
    {
        FolderShelf { rt, faults: 0 }
    }

    /// How often a call has failed.
    pub fn faults(&self) -> u64
        ensures { result ≡ self.now.faults }
    {
        self.faults
    }
}

fn read_file<R: Files>(rt: &R, path: &str, into: &mut Vec<u8>) -> Result<(), OutsideError>
    ensures kept { Extends into.old.items into.new.items }
{
    let Ok(mut file) = fs::open(rt, path) else {
        return Err(OutsideError::Failed);
    };
    read_all(&mut file, into)
}

impl<R: Files> Shelf for FolderShelf<R> {
    ghost files = { λ _. None };

    ghost faults = { λ shelf. shelf.faults };

    fn read(&mut self, name: &str, into: &mut Vec<u8>) -> Result<(), OutsideError>
        ensures kept { Extends into.old.items into.new.items }
        ensures later { self.old.faults ≤ self.new.faults }
        ensures cause { IsErrOf result OutsideError.Failed → Rose self.old.faults self.new.faults ⊎ ⊥ }

        // The count rises at each error, and stays at each other answer.
        ensures count { self.new.faults ≡ (if is_ok result then self.old.faults else risen self.old.faults) }
    {
        let answer = read_file(&self.rt, name, into);
        self.faults = count_after(self.faults, &answer);
        answer
    }
}

/// Class files as files of a file system, by their paths. It makes the folders that a path names.
#[derive(Drop)]
pub struct FolderClasses<R: Files> {
    rt: R,
    faults: u64,
}

impl<R: Files> FolderClasses<R> {
    pub fn new(rt: R) -> FolderClasses<R>
        ensures { result ≡ record { rt = rt; faults = 0 } }
    {
        FolderClasses { rt, faults: 0 }
    }

    /// How often a call has failed.
    pub fn faults(&self) -> u64
        ensures { result ≡ self.now.faults }
    {
        self.faults
    }
}

// Makes the folders that a file's path names.
fn make_folders<R: Files>(rt: &R, path: &str) -> Result<(), OutsideError> {
    match Path::new(path).parent() {
        Some(folder) => fs::create_dir_all(rt, folder).map_err(|_| OutsideError::Failed),
        None => Ok(()),
    }
}

// Writes a file. One that can't be written whole is removed.
fn write_file<R: Files>(rt: &R, path: &str, bytes: &[u8]) -> Result<(), OutsideError> {
    make_folders(rt, path)?;
    let Ok(mut file) = fs::create(rt, path) else {
        return Err(OutsideError::Failed);
    };
    let answer = write_all(&mut file, bytes);
    if answer.is_err() {
        let _ = fs::remove_file(rt, path);
    }
    answer
}

impl<R: Files> ClassShelf for FolderClasses<R> {
    ghost pairs = { λ _. None };

    ghost faults = { λ classes. classes.faults };

    fn put(&mut self, name: &str, bytes: &[u8]) -> Result<(), OutsideError>
        ensures later { self.old.faults ≤ self.new.faults }
        ensures cause { IsErrOf result OutsideError.Failed → Rose self.old.faults self.new.faults }

        // The count rises at each error, and stays at each other answer.
        ensures count { self.new.faults ≡ (if is_ok result then self.old.faults else risen self.old.faults) }
    {
        let answer = write_file(&self.rt, name, bytes);
        self.faults = count_after(self.faults, &answer);
        answer
    }
}
