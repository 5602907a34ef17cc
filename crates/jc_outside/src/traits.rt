//! What a job sees of the world: sources, a place for class files, input, output.
ghost use Rattle.std.specs.Prelude.{◌≡◌, ◌≤◌, ◌⊎◌, ℕ, List, [], ◌∷◌, IfOk, OnOk, OnErr, IsErrOf};
ghost use Rattle.std.specs.declared.option.Option.{Option};
ghost use Rattle.jc_outside.specs.Told.{Files, Rose, IsMissing, Gives, Extends, Stays, Gets, GetsPart, Takes};

use crate::{KeysFault, OutsideError};

/// Files by name.
pub trait Shelf {
    /// The files, where they are told.
    ghost files: { Self → Option Files };

    /// How often a read has failed.
    ghost faults: { Self → ℕ };

    /// Puts a file's bytes at the end of `into`. After an error `into` may have got some bytes.
    fn read(&mut self, name: &str, into: &mut Vec<u8>) -> Result<(), OutsideError>
        ensures files { files self.new ≡ files self.old }
        ensures ok { OnOk result (Gives (files self.old) name.now into.old.items into.new.items) }
        ensures kept { Extends into.old.items into.new.items }
        ensures later { faults self.old ≤ faults self.new }
        ensures cause { IsErrOf result OutsideError.Failed →
            Rose (faults self.old) (faults self.new) ⊎ IsMissing (files self.old) name.now };
}

/// Class files by name, in the order in which they were put.
pub trait ClassShelf {
    /// The pairs of a name and bytes, where they are told.
    ghost pairs: { Self → Option Files };

    /// How often a put has failed.
    ghost faults: { Self → ℕ };

    /// Puts one class file after those that are there. After an error nothing was put.
    fn put(&mut self, name: &str, bytes: &[u8]) -> Result<(), OutsideError>
        ensures ok { OnOk result (Gets (pairs self.old) ((name.now, bytes.now) ∷ []) (pairs self.new)) }
        ensures err { OnErr result (Stays (pairs self.old) (pairs self.new)) }
        ensures later { faults self.old ≤ faults self.new }
        ensures cause { IsErrOf result OutsideError.Failed → Rose (faults self.old) (faults self.new) };
}

/// Bytes that come in.
pub trait Keys {
    /// The bytes that are left, where they are told.
    ghost left: { Self → Option (List ℕ) };

    /// How often a read has failed.
    ghost faults: { Self → ℕ };

    /// Takes the next byte. None is the end, and stays the end. After a fault nothing was taken. It takes no memory.
    fn next(&mut self) -> Result<Option<u8>, KeysFault>
        ensures ok { IfOk result (λ byte. Takes (left self.old) byte (left self.new)) }
        ensures err { OnErr result (Stays (left self.old) (left self.new)) }
        ensures later { faults self.old ≤ faults self.new }
        ensures cause { OnErr result (Rose (faults self.old) (faults self.new)) };
}

/// Bytes that go out.
pub trait Paper {
    /// The bytes put so far, where they are told.
    ghost out: { Self → Option (List ℕ) };

    /// How often a put has failed.
    ghost faults: { Self → ℕ };

    /// Puts these bytes after those that are there. After `Failed` some first part of them was put, after `WantOfMemory` nothing.
    fn put(&mut self, bytes: &[u8]) -> Result<(), OutsideError>
        ensures ok { OnOk result (Gets (out self.old) bytes.now (out self.new)) }
        ensures failed { IsErrOf result OutsideError.Failed → GetsPart (out self.old) bytes.now (out self.new) }
        ensures memory { IsErrOf result OutsideError.WantOfMemory → Stays (out self.old) (out self.new) }
        ensures later { faults self.old ≤ faults self.new }
        ensures cause { IsErrOf result OutsideError.Failed → Rose (faults self.old) (faults self.new) };
}
