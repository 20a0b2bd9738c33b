//! The desk, at which the lines of a case file are done one after another.

use crate::case::{Case, NamedFile, Side};
use crate::content::{Content, write};
use crate::fault::{Fault, Stop};
use crate::line::Line;
use crate::report::{Answer, report, report_place};
use std::alloc::Global;
use std::mem;

/// What the lines that follow belong to.
#[derive(Drop)]
enum Open<'a> {
    Nothing,
    File(&'a str),
    Case(Case<'a>),
}

/// The files of the shelf, the file or the case that is being written, and the bytes of that file
/// or of the wanted output.
#[derive(Drop)]
pub(crate) struct Desk<'a> {
    alloc: Global,
    shelf: Vec<NamedFile>,
    open: Open<'a>,
    bytes: Vec<u8>,
    titles: Vec<&'a str>,
    count: u64,
}

impl<'a> Desk<'a> {
    /// A desk with an empty shelf.
    pub(crate) fn new(alloc: Global) -> Desk<'a> {
        Desk {
            alloc,
            shelf: Vec::new(alloc),
            open: Open::Nothing,
            bytes: Vec::new(alloc),
            titles: Vec::new(alloc),
            count: 0,
        }
    }

    /// How many cases were run.
    pub(crate) fn count(&self) -> u64 {
        self.count
    }

    /// Does what the line says. A case is run when the line after it closes it.
    pub(crate) fn take<R: Print>(&mut self, rt: &R, line: &'a str) -> Result<(), Stop> {
        match Line::of(line)? {
            Line::Remark => Ok(()),
            Line::File(name, like) => {
                self.close(rt)?;
                self.open = Open::File(name);
                self.begin(like)
            }
            Line::Drop(name) => {
                self.close(rt)?;
                self.drop_file(name)
            }
            Line::Case(title) => {
                self.close(rt)?;
                self.open_case(title)
            }
            Line::Content(content) => self.write(content),
            Line::Wanted(side, like) => self.want(side, like),
            part => self.set(part),
        }
    }

    /// Puts the file that is open on the shelf, or runs the case that is open.
    pub(crate) fn close<R: Print>(&mut self, rt: &R) -> Result<(), Stop> {
        let bytes = mem::replace(&mut self.bytes, Vec::new(self.alloc));
        match mem::replace(&mut self.open, Open::Nothing) {
            Open::Nothing => Ok(()),
            Open::File(name) => self.put_file(name, bytes),
            Open::Case(case) => self.run(rt, &case, &bytes),
        }
    }

    fn run<R: Print>(&mut self, rt: &R, case: &Case<'a>, wanted: &[u8]) -> Result<(), Stop> {
        let (Some(status), Some(side)) = (case.status, case.side) else {
            return Err(Stop::Fault(Fault::Unfinished));
        };
        let outcome = case.call(self.alloc, &self.shelf)?;
        let part = outcome.part(self.alloc, side, wanted.len())?;
        let wanted = Answer {
            status,
            text: wanted,
        };
        let came = Answer {
            status: outcome.status,
            text: &part,
        };
        report(rt, case.title, wanted, came)?;
        if !case.is_placed(&outcome) {
            report_place(rt, case.title)?;
        }
        self.count = self.count.saturating_add(1);
        match case.keep {
            Some(name) => self.put_file(name, outcome.out),
            None => Ok(()),
        }
    }

    fn put_file(&mut self, name: &str, bytes: Vec<u8>) -> Result<(), Stop> {
        self.shelf.retain(|file| file.0.as_str() != name);
        self.shelf
            .push((String::from_str(self.alloc, name)?, bytes))?;
        Ok(())
    }

    fn drop_file(&mut self, name: &str) -> Result<(), Stop> {
        let before = self.shelf.len();
        self.shelf.retain(|file| file.0.as_str() != name);
        if self.shelf.len() == before {
            return Err(Stop::Fault(Fault::NoFile));
        }
        Ok(())
    }

    fn open_case(&mut self, title: &'a str) -> Result<(), Stop> {
        if self.titles.iter().any(|other| *other == title) {
            return Err(Stop::Fault(Fault::TitleTwice));
        }
        self.titles.push(title)?;
        self.open = Open::Case(Case::new(self.alloc, title));
        Ok(())
    }

    /// Takes the bytes of the named file to begin with.
    fn begin(&mut self, like: Option<&str>) -> Result<(), Stop> {
        let Some(name) = like else {
            return Ok(());
        };
        for file in &self.shelf {
            if file.0.as_str() == name {
                self.bytes = file.1.clone()?;
                return Ok(());
            }
        }
        Err(Stop::Fault(Fault::NoFile))
    }

    fn write(&mut self, content: Content<'_>) -> Result<(), Stop> {
        let has_place = match &self.open {
            Open::Nothing => false,
            Open::File(_) => true,
            Open::Case(case) => case.side.is_some() && case.keep.is_none(),
        };
        if !has_place {
            return Err(Stop::Fault(Fault::OutOfPlace));
        }
        write(self.alloc, &mut self.bytes, content)
    }

    fn want(&mut self, side: Side, like: Option<&str>) -> Result<(), Stop> {
        match &mut self.open {
            Open::Case(case) if case.side.is_none() => case.side = Some(side),
            _ => return Err(Stop::Fault(Fault::OutOfPlace)),
        }
        self.begin(like)
    }

    /// Takes in a line of a case.
    fn set(&mut self, part: Line<'a>) -> Result<(), Stop> {
        let Open::Case(case) = &mut self.open else {
            return Err(Stop::Fault(Fault::OutOfPlace));
        };
        match part {
            Line::Words(Some(words)) => {
                for word in words.split(' ') {
                    case.words.push(String::from_str(self.alloc, word)?)?;
                }
            }
            Line::Read(number) => case.failing_reads.push(number)?,
            Line::Put(number, count) => {
                case.failing_put = Some((number, count));
                case.failing_error_put = Some((number, count));
            }
            Line::ErrorPut(number, count) => case.failing_error_put = Some((number, count)),
            Line::Room(room) => case.room = room,
            Line::Status(status) => case.status = Some(status),
            Line::Keep(name) => case.keep = Some(name),
            _ => {}
        }
        Ok(())
    }
}
