//! What no clause says of `jc_outside`.
use jc_outside::*;
use jc_rules::{Items, Text, WantOfMemory};
use std::alloc::Global;
use std::io::{ErrorKind, Read, Write};
use std::test::Fail as TestFail;
use std::{fs, io};

fn entry(alloc: Global, name: &str, bytes: &[u8]) -> Result<FileEntry, WantOfMemory> {
    let name = Text::copied(alloc, name)?;
    let bytes = Items::of(bytes.to_vec(alloc)?);
    Ok(FileEntry { name, bytes })
}

#[test]
fn shelves_in_memory_give_the_first_file_of_a_name(rt: HostRuntime) -> Result<(), TestFail> {
    let alloc = rt.alloc();
    let files = vec![in alloc; entry(alloc, "a", b"xy")?, entry(alloc, "a", b"z")?]?;
    let mut shelf = SureShelf::new(Items::of(files));
    let mut into = b"-".to_vec(alloc)?;
    shelf.read("a", &mut into)?;
    assert_eq!(rt; shelf.read("b", &mut into), Err(OutsideError::Failed));
    assert_eq!(rt; into.as_slice(), b"-xy".as_slice());
    let files = vec![in alloc; entry(alloc, "a", b"xy")?]?;
    let mut shelf = MemShelf::new(Items::of(files), Items::of(vec![in alloc; 2]?));
    let mut into = Vec::new(alloc);
    shelf.read("a", &mut into)?;
    assert_eq!(rt; shelf.read("a", &mut into), Err(OutsideError::Failed));
    shelf.read("a", &mut into)?;
    assert_eq!(rt; into.as_slice(), b"xyxy".as_slice());
    Ok(())
}

#[test]
fn class_shelves_in_memory_keep_the_order(rt: HostRuntime) -> Result<(), TestFail> {
    let alloc = rt.alloc();
    let mut classes = SureClasses::new(alloc);
    classes.put("d/A.class", b"1")?;
    classes.put("d/B.class", b"2")?;
    let names = [classes.files().len(), 0];
    assert_eq!(rt; names, [2, 0]);
    for (file, name) in classes.files().iter().zip(["d/A.class", "d/B.class"]) {
        assert_eq!(rt; file.name.str(), name);
    }
    let mut classes = MemClasses::new(alloc, Items::of(vec![in alloc; 1]?));
    assert_eq!(rt; classes.put("d/A.class", b"1"), Err(OutsideError::Failed));
    classes.put("d/B.class", b"2")?;
    assert_eq!(rt; classes.files().len(), 1);
    Ok(())
}

#[test]
fn keys_in_memory_end_and_stay_at_the_end(rt: HostRuntime) -> Result<(), TestFail> {
    let alloc = rt.alloc();
    let mut keys = SureKeys::new(Items::of(b"A".to_vec(alloc)?));
    assert_eq!(rt; keys.next()?, Some(b'A'));
    assert_eq!(rt; keys.next()?, None);
    assert_eq!(rt; keys.next()?, None);
    let mut keys = MemKeys::new(
        Items::of(b"AB".to_vec(alloc)?),
        Items::of(vec![in alloc; 2]?),
    );
    assert_eq!(rt; keys.next()?, Some(b'A'));
    assert_eq!(rt; keys.next(), Err(KeysFault));
    assert_eq!(rt; keys.next()?, Some(b'B'));
    Ok(())
}

#[test]
fn papers_in_memory_get_a_first_part_of_a_put_that_fails(rt: HostRuntime) -> Result<(), TestFail> {
    let alloc = rt.alloc();
    let mut paper = SurePaper::new(alloc);
    paper.put(b"Hi")?;
    assert_eq!(rt; paper.out(), b"Hi".as_slice());
    let fails = vec![in alloc; Fail { call: 2, first: 1 }]?;
    let mut paper = MemPaper::new(alloc, Items::of(fails));
    paper.put(b"Hi")?;
    assert_eq!(rt; paper.put(b"Yo"), Err(OutsideError::Failed));
    paper.put(b"!")?;
    assert_eq!(rt; paper.out(), b"HiY!".as_slice());
    Ok(())
}

#[test]
fn a_folder_gives_its_files(rt: HostRuntime) -> Result<(), TestFail> {
    let alloc = rt.alloc();
    fs::create_dir_all(&rt, "folder")?;
    fs::write(&rt, "folder/Hello.txt", "hello\n")?;
    let mut shelf = FolderShelf::new(&rt);
    let mut into = Vec::new(alloc);
    shelf.read("folder/Hello.txt", &mut into)?;
    assert_eq!(rt; into.as_slice(), b"hello\n".as_slice());
    assert_eq!(rt; shelf.faults(), 0);
    for (name, faults) in [
        ("folder", 1),
        ("folder/missing.txt", 2),
        ("folder/Hello.txt/x", 3),
    ] {
        assert_eq!(rt;
            shelf.read(name, &mut into),
            Err(OutsideError::Failed),
            "{name}"
        );
        assert_eq!(rt; shelf.faults(), faults, "{name}");
    }
    assert_eq!(rt; into.as_slice(), b"hello\n".as_slice());
    fs::remove_dir_all(&rt, "folder")?;
    Ok(())
}

#[test]
fn a_folder_takes_class_files(rt: HostRuntime) -> Result<(), TestFail> {
    let alloc = rt.alloc();
    let mut classes = FolderClasses::new(&rt);
    classes.put("made/java/lang/Object.class", b"\xca\xfe")?;
    classes.put("made/Main.class", b"12345")?;
    classes.put("made/Main.class", b"67")?;
    let mut shelf = FolderShelf::new(&rt);
    let mut into = Vec::new(alloc);
    shelf.read("made/java/lang/Object.class", &mut into)?;
    shelf.read("made/Main.class", &mut into)?;
    assert_eq!(rt; into.as_slice(), b"\xca\xfe67".as_slice());
    assert_eq!(rt;
        classes.put("made/Main.class/A.class", b"1"),
        Err(OutsideError::Failed)
    );
    assert_eq!(rt; classes.put("made/java", b"1"), Err(OutsideError::Failed));
    assert_eq!(rt; classes.faults(), 2);
    fs::remove_dir_all(&rt, "made")?;
    Ok(())
}

// A stream of two bytes at a time that a signal interrupts at first, and that fails after so many bytes.
#[derive(Drop)]
struct Stream {
    bytes: Vec<u8>,
    left: usize,
    interrupted: bool,
}

impl Write for Stream {
    fn write(&mut self, piece: &[u8]) -> io::Result<usize> {
        self.interrupted = !self.interrupted;
        if self.interrupted {
            return Err(io::Error::from(ErrorKind::Interrupted));
        }
        let count = piece.len().min(2).min(self.left);
        if count == 0 {
            return Err(io::Error::from(ErrorKind::StorageFull));
        }
        self.bytes.extend_from_slice(&piece[..count])?;
        self.left -= count;
        Ok(count)
    }

    fn flush(&mut self) -> io::Result<()> {
        Ok(())
    }
}

#[test]
fn a_stream_takes_bytes_until_it_fails(rt: HostRuntime) -> Result<(), TestFail> {
    let alloc = rt.alloc();
    let mut paper = StdPaper::new(Vec::new(alloc));
    paper.put(b"Hi")?;
    paper.put(b"")?;
    assert_eq!(rt; paper.inner().as_slice(), b"Hi".as_slice());
    let mut paper = StdPaper::new(Stream {
        bytes: Vec::new(alloc),
        left: 5,
        interrupted: false,
    });
    paper.put(b"Hey")?;
    assert_eq!(rt; paper.faults(), 0);
    assert_eq!(rt; paper.put(b"you"), Err(OutsideError::Failed));
    assert_eq!(rt; paper.inner().bytes.as_slice(), b"Heyyo".as_slice());
    assert_eq!(rt; paper.faults(), 1);
    Ok(())
}

// A stream that gives its bytes one at a time, each after an interruption, then one fault, then an end, and then more.
#[derive(Drop)]
struct Source {
    turn: u8,
}

impl Read for Source {
    fn read(&mut self, piece: &mut [u8]) -> io::Result<usize> {
        self.turn = self.turn.saturating_add(1);
        match self.turn {
            1 => Err(io::Error::from(ErrorKind::Interrupted)),
            3 => Err(io::Error::from(ErrorKind::ConnectionReset)),
            5 => Ok(0),
            _ => {
                if piece.is_empty() {
                    return Ok(0);
                }
                piece[0] = self.turn;
                Ok(1)
            }
        }
    }
}

#[test]
fn a_stream_gives_bytes_and_then_ends(rt: HostRuntime) -> Result<(), TestFail> {
    let mut keys = StdKeys::new(Source { turn: 0 });
    assert_eq!(rt; keys.next()?, Some(2));
    assert_eq!(rt; keys.next(), Err(KeysFault));
    assert_eq!(rt; keys.faults(), 1);
    assert_eq!(rt; keys.next()?, Some(4));
    assert_eq!(rt; keys.next()?, None);
    assert_eq!(rt; keys.next()?, None);
    Ok(())
}

// A stream that shows what it took only when it is flushed.
#[derive(Drop)]
struct Buffered {
    kept: Vec<u8>,
    shown: Vec<u8>,
}

impl Write for Buffered {
    fn write(&mut self, piece: &[u8]) -> io::Result<usize> {
        self.kept.extend_from_slice(piece)?;
        Ok(piece.len())
    }

    fn flush(&mut self) -> io::Result<()> {
        self.shown.append(&mut self.kept)?;
        Ok(())
    }
}

#[test]
fn a_put_leaves_nothing_in_a_buffer(rt: HostRuntime) -> Result<(), TestFail> {
    let alloc = rt.alloc();
    let mut paper = StdPaper::new(Buffered {
        kept: Vec::new(alloc),
        shown: Vec::new(alloc),
    });
    paper.put(b"Hi")?;
    assert_eq!(rt; paper.inner().shown.as_slice(), b"Hi".as_slice());
    Ok(())
}
