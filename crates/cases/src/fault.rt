//! Why the run of a case file stops.

use std::alloc::{AllocError, AllocFailed};
use std::{fmt, io};

/// What is wrong with a line of a case file.
#[derive(Clone, Copy)]
pub(crate) enum Fault {
    /// The line begins with none of the words that it may begin with.
    Unknown,
    /// A number is missing, or out of range.
    BadNumber,
    /// The bytes are not written as pairs of digits to the base of 16.
    BadBytes,
    /// A name is missing.
    NoName,
    /// The line has no meaning at its place.
    OutOfPlace,
    /// The shelf has no file of this name.
    NoFile,
    /// The bytes have fewer lines.
    NoLine,
    /// Another case of the file has the title.
    TitleTwice,
    /// The case ends with no wanted status or no wanted output.
    Unfinished,
}

impl fmt::Display for Fault {
    fn fmt<W: fmt::Write>(&self, f: &mut fmt::Formatter<W>) -> fmt::Result {
        match self {
            Fault::Unknown => write!(f, "not a line of a case file"),
            Fault::BadNumber => write!(f, "a number is missing or out of range"),
            Fault::BadBytes => write!(f, "not bytes as pairs of digits"),
            Fault::NoName => write!(f, "a name is missing"),
            Fault::OutOfPlace => write!(f, "the line is out of place"),
            Fault::NoFile => write!(f, "no such file on the shelf"),
            Fault::NoLine => write!(f, "fewer lines"),
            Fault::TitleTwice => write!(f, "the title stands twice"),
            Fault::Unfinished => write!(f, "the case above wants no status or no output"),
        }
    }
}

/// Why no further line is done.
#[derive(Drop)]
pub(crate) enum Stop {
    /// A line has a fault.
    Fault(Fault),
    /// Memory was refused, or the output failed.
    Outside(io::Error),
}

impl From<Fault> for Stop {
    fn from(fault: Fault) -> Stop {
        Stop::Fault(fault)
    }
}

impl From<io::Error> for Stop {
    fn from(error: io::Error) -> Stop {
        Stop::Outside(error)
    }
}

impl From<AllocError> for Stop {
    fn from(error: AllocError) -> Stop {
        Stop::Outside(io::Error::from(error))
    }
}

impl<T: Drop> From<AllocFailed<T>> for Stop {
    fn from(failed: AllocFailed<T>) -> Stop {
        Stop::from(AllocError::from(failed))
    }
}
