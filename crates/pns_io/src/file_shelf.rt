//! The files of the system.
ghost use Rattle.std.specs.Prelude.{◌≡◌, ◌≤◌, List, ℕ, length, IfOk, OnOk, OnErr, None};
ghost use Rattle.text_rules.specs.Outside.{HasRisen, ReadsAt, IfTold, counted};

use crate::{Failed, Shelf};
use std::io::{ErrorKind, Read, Seek, SeekFrom};
use std::marker::Model;
use std::rt::Files;
use std::{fs, io};

/// The most bytes of a name. The system opens no file with a longer one.
const NAME_ROOM: usize = 4096;

/// The name of the standard input. A file of this name is `./-`.
const INPUT: &str = "-";

/// A file that is open, its name, and the place after what was read of it.
#[derive(Drop)]
struct OpenFile<T: Drop> {
    file: T,
    name: [u8; NAME_ROOM],
    length: usize,
    at: u64,
}

/// An input that is read only from its start on, and how many bytes were read of it.
#[derive(Drop)]
struct Input<I: Drop> {
    input: I,
    at: u64,
}

/// The files of the system, by their paths, and an input by the name `-`. A file stays open while
/// it is read from its start, piece by piece, so it may be a pipe. The input is read as it comes,
/// and is never read again from an earlier place. The state does not say what the files hold.
/// Contracts see the number of reads that failed, which is the count of faults of every name and
/// stays at 2^64 - 1.
#[derive(Drop)]
pub struct FileShelf<'a, R: Files, I: Read + Drop> {
    rt: &'a R,
    input: Input<I>,
    failed: u64,
    open: Option<OpenFile<R::File>>,
}

impl<'a, R: Files, I: Read + Drop> Model for FileShelf<'a, R, I> {
    ghost use Rattle.std.specs.Prelude.{ℕ};

    ghost Value = { ℕ };

    ghost view = { λ s. s.failed };
}

impl<T: Read + Seek + Drop> OpenFile<T> {
    /// The file with its name, from a place on. A pipe can be read only from its start on.
    fn of(file: T, name: &[u8], at: u64) -> io::Result<OpenFile<T>> {
        if name.len() > NAME_ROOM {
            return Err(io::Error::from(ErrorKind::InvalidInput));
        }
        let mut file = file;
        if at > 0 {
            file.seek(SeekFrom::Start(at))?;
        }
        let mut kept = [0; NAME_ROOM];
        kept[..name.len()].copy_from_slice(name);
        Ok(OpenFile {
            file,
            name: kept,
            length: name.len(),
            at,
        })
    }

    /// Whether the file has this name, and the place is the one after what was read of it.
    fn stands_at(&self, name: &[u8], at: u64) -> bool {
        self.at == at && self.name.get(..self.length) == Some(name)
    }

    fn read(&mut self, into: &mut [u8]) -> io::Result<usize>
        ensures { IfOk result (λ k. k ≤ length into.new) }
    {
        let count = self.file.read(into)?;
        self.at = self.at.saturating_add(count as u64);
        Ok(count)
    }
}

impl<I: Read + Drop> Input<I> {
    /// Reads on, if the place is the one after what was read.
    fn read(&mut self, at: u64, into: &mut [u8]) -> io::Result<usize>
        ensures { IfOk result (λ k. k ≤ length into.new) }
    {
        if at != self.at {
            return Err(io::Error::from(ErrorKind::InvalidInput));
        }
        let count = self.input.read(into)?;
        self.at = self.at.saturating_add(count as u64);
        Ok(count)
    }
}

impl<'a, R: Files, I: Read + Drop> FileShelf<'a, R, I> {
    /// A shelf of which no read has failed.
    pub fn new(rt: &'a R, input: I) -> FileShelf<'a, R, I>
        ensures { result ≡ 0 }
    {
        FileShelf {
            rt,
            input: Input { input, at: 0 },
            failed: 0,
            open: None,
        }
    }

    /// Reads on in the input or in the file that is open, or opens another file. After a failure
    /// none is open.
    fn read_on(&mut self, name: &str, at: u64, into: &mut [u8]) -> io::Result<usize>
        ensures count { IfOk result (λ k. k ≤ length into.new) }
        ensures failed { self.new ≡ self.old }
    {
        if name == INPUT {
            return self.input.read(at, into);
        }
        let mut file = match self.open.take() {
            Some(file) if file.stands_at(name.as_bytes(), at) => file,
            _ => OpenFile::of(fs::open(self.rt, name)?, name.as_bytes(), at)?,
        };
        let count = file.read(into)?;
        self.open = Some(file);
        Ok(count)
    }
}

impl<'a, R: Files, I: Read + Drop> Shelf for FileShelf<'a, R, I> {
    ghost state = { λ failed. record { held = λ _. None; faults = λ _. failed } };

    fn read(&mut self, name: &str, at: u64, into: &mut [u8]) -> Result<usize, Failed>
        ensures count { IfOk result (λ k. k ≤ length into.new) }
        ensures told { IfOk result (λ k. IfTold None (λ file. ReadsAt file at into.new k)) }
        ensures ok { OnOk result (self.new ≡ self.old) }
        ensures err { OnErr result (self.new ≡ counted self.old) }
        ensures cause { OnErr result (HasRisen self.old self.new) }
        ensures later { (other : List ℕ) → self.old ≤ self.new }
    {
        match self.read_on(name, at, into) {
            Ok(count) => Ok(count),
            Err(_) => {
                self.failed = self.failed.saturating_add(1);
                Err(Failed)
            }
        }
    }
}
