//! Input and output over the streams of the system.
// Adapters over readers and writers, as standard input and output. They tell what std's contracts tell of these.
ghost use Rattle.std.specs.Prelude.{◌≡◌, ◌≤◌, ◌≢◌, ◌⊎◌, ◌↔◌, ◌<◌, [], ◌∷◌, ◌++◌, length, take, Some, None, IfOk, OnOk, OnErr, IsErrOf, MatchOption, IfSome, IfErr, false, is_ok, if◌then◌else◌};
ghost use Rattle.std.specs.Io.KnownBytes.{Consumes, IsAtEnd, Keeps};
ghost use Rattle.jc_outside.specs.Told.{Rose, risen, Extends, Stays, Gets, GetsPart, Takes};

use crate::{Keys, KeysFault, OutsideError, Paper};
use std::io::{ErrorKind, Read, Write};

/// How many turns a loop over a stream may take.
const TURNS: u64 = 1 << 40;

/// The count of faults after a call with this answer.
pub fn count_after<T, E>(faults: u64, answer: &Result<T, E>) -> u64
    ensures { result ≡ (if is_ok answer.now then faults else risen faults) }
{
    if answer.is_ok() {
        faults
    } else {
        faults.saturating_add(1)
    }
}

// Reads some bytes, at least one but at the end, and tells how many; none where the reader failed.
// A read that a signal interrupts is tried again.
fn read_some<R: Read>(from: &mut R, piece: &mut [u8]) -> Option<usize>
    ensures { MatchOption result (Keeps (R.remaining from.old) (R.remaining from.new))
        (λ count. (count ≤ length piece.new) × Consumes (R.remaining from.old) (R.remaining from.new) (take count piece.new)
        × (count ≡ 0 → 0 < length piece.new → IsAtEnd (R.remaining from.new))) }
{
    for _ in 0..TURNS {
        match from.read(piece) {
            Ok(count) => return Some(count),
            Err(error) => {
                if error.kind() != ErrorKind::Interrupted {
                    return None;
                }
            }
        }
    }
    None
}

/// Puts all that is left of a stream at the end of `into`.
pub fn read_all<R: Read>(from: &mut R, into: &mut Vec<u8>) -> Result<(), OutsideError>
    ensures kept { Extends into.old.items into.new.items }
    ensures ok { OnOk result (IfSome (R.remaining from.old) (λ bytes. into.new.items ≡ into.old.items ++ bytes)) }
{
    let mut piece = [0u8; 4096];
    for _ in 0..TURNS {
        match read_some(from, &mut piece) {
            Some(0) => return Ok(()),
            Some(count) => into.extend_from_slice(&piece[..count])?,
            None => return Err(OutsideError::Failed),
        }
    }
    Err(OutsideError::Failed)
}

// Writes some of the bytes and tells how many, or none where the writer failed.
// A write that a signal interrupts is tried again.
fn write_some<W: Write>(to: &mut W, bytes: &[u8]) -> Option<usize>
    ensures { MatchOption result (Stays (W.contents to.old) (W.contents to.new))
        (λ count. (count ≤ length bytes.now) × Gets (W.contents to.old) (take count bytes.now) (W.contents to.new)) }
{
    for _ in 0..TURNS {
        match to.write(bytes) {
            Ok(count) => return Some(count),
            Err(error) => {
                if error.kind() != ErrorKind::Interrupted {
                    return None;
                }
            }
        }
    }
    None
}

// Writes all the bytes. A write that takes nothing of a piece is a failure.
fn write_bytes<W: Write>(to: &mut W, bytes: &[u8]) -> Result<(), OutsideError>
    ensures ok { OnOk result (Gets (W.contents to.old) bytes.now (W.contents to.new)) }
    ensures err { IfErr result (λ error. (error ≡ OutsideError.Failed) × GetsPart (W.contents to.old) bytes.now (W.contents to.new)) }
{
    let mut written = 0;
    for _ in 0..TURNS {
        if written == bytes.len() {
            return Ok(());
        }
        match write_some(to, &bytes[written..]) {
            Some(count) if count > 0 => written += count,
            _ => return Err(OutsideError::Failed),
        }
    }
    Err(OutsideError::Failed)
}

/// Writes all the bytes, and leaves none in a buffer.
pub fn write_all<W: Write>(to: &mut W, bytes: &[u8]) -> Result<(), OutsideError>
    ensures ok { OnOk result (Gets (W.contents to.old) bytes.now (W.contents to.new)) }
    ensures err { IfErr result (λ error. (error ≡ OutsideError.Failed) × GetsPart (W.contents to.old) bytes.now (W.contents to.new)) }
{
    write_bytes(to, bytes)?;
    match to.flush() {
        Ok(()) => Ok(()),
        Err(_) => Err(OutsideError::Failed),
    }
}

/// A stream that bytes come in from, as standard input. It takes one byte of the stream at a time.
#[derive(Drop)]
pub struct StdKeys<R: Read> {
    inner: R,
    ended: bool,
    faults: u64,
}

impl<R: Read> StdKeys<R> {
    pub fn new(inner: R) -> StdKeys<R>
        ensures { result ≡ record { inner = inner; ended = false; faults = 0 } }
    {
        StdKeys {
            inner,
            ended: false,
            faults: 0,
        }
    }

    /// How often a call has failed.
    pub fn faults(&self) -> u64
        ensures { result ≡ self.now.faults }
    {
        self.faults
    }
}

impl<R: Read> Keys for StdKeys<R> {
    ghost left = { λ keys. (if keys.ended then Some [] else R.remaining keys.inner) };

    ghost faults = { λ keys. keys.faults };

    fn next(&mut self) -> Result<Option<u8>, KeysFault>
        ensures ok { IfOk result (λ byte. Takes (if self.old.ended then Some [] else R.remaining self.old.inner) byte (if self.new.ended then Some [] else R.remaining self.new.inner)) }
        ensures err { OnErr result (Stays (if self.old.ended then Some [] else R.remaining self.old.inner) (if self.new.ended then Some [] else R.remaining self.new.inner)) }
        ensures later { self.old.faults ≤ self.new.faults }
        ensures cause { OnErr result (Rose self.old.faults self.new.faults) }

        // The count rises at each fault, and stays at each other answer.
        ensures count { self.new.faults ≡ (if is_ok result then self.old.faults else risen self.old.faults) }
    {
        if self.ended {
            return Ok(None);
        }
        let mut byte = [0u8; 1];
        match read_some(&mut self.inner, &mut byte) {
            Some(0) => {
                self.ended = true;
                Ok(None)
            }
            Some(_) => Ok(Some(byte[0])),
            None => {
                self.faults = self.faults.saturating_add(1);
                Err(KeysFault)
            }
        }
    }
}

/// A stream that bytes go out to, as standard output.
#[derive(Drop)]
pub struct StdPaper<W: Write> {
    inner: W,
    faults: u64,
}

impl<W: Write> StdPaper<W> {
    pub fn new(inner: W) -> StdPaper<W>
        ensures { result ≡ record { inner = inner; faults = 0 } }
    {
        StdPaper { inner, faults: 0 }
    }

    /// The stream.
    pub fn inner(&self) -> &W
        ensures { result.now ≡ self.now.inner }
    {
        &self.inner
    }

    /// How often a call has failed.
    pub fn faults(&self) -> u64
        ensures { result ≡ self.now.faults }
    {
        self.faults
    }
}

impl<W: Write> Paper for StdPaper<W> {
    ghost out = { λ paper. W.contents paper.inner };

    ghost faults = { λ paper. paper.faults };

    fn put(&mut self, bytes: &[u8]) -> Result<(), OutsideError>
        ensures ok { OnOk result (Gets (W.contents self.old.inner) bytes.now (W.contents self.new.inner)) }
        ensures failed { IsErrOf result OutsideError.Failed → GetsPart (W.contents self.old.inner) bytes.now (W.contents self.new.inner) }
        ensures memory { IsErrOf result OutsideError.WantOfMemory → Stays (W.contents self.old.inner) (W.contents self.new.inner) }
        ensures later { self.old.faults ≤ self.new.faults }
        ensures cause { IsErrOf result OutsideError.Failed → Rose self.old.faults self.new.faults }

        // The count rises at each error, and stays at each other answer. It takes no memory.
        ensures count { self.new.faults ≡ (if is_ok result then self.old.faults else risen self.old.faults) }
        ensures no_memory { result ≢ Err OutsideError.WantOfMemory }
    {
        let answer = write_all(&mut self.inner, bytes);
        self.faults = count_after(self.faults, &answer);
        answer
    }
}
