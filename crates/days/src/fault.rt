// What can be wrong with a line of a day.
ghost use Rattle.std.specs.Prelude.{◌≡◌, ◌++◌, Some, codes, decimal};
ghost use Rattle.days.specs.Messages.{message_of};
ghost use Rattle.days.specs.declared.fault.Fault.TheVariants.{Memory};

use crate::says::message;
use std::alloc::{AllocError, AllocFailed};
use std::error::Error;
use std::fmt;

#[derive(Clone, Copy, PartialEq, Eq, Debug)]
pub enum Fault {
    // No memory is left: nothing is said of the line.
    Memory,
    UnknownWord,
    BadNumber,
    BadSize,
    BadText,
    TooLong,
}

impl From<AllocError> for Fault {
    ghost from_gives = { λ _ r. r ≡ Memory };

    fn from(_e: AllocError) -> Fault {
        Fault::Memory
    }
}

impl<T: Drop> From<AllocFailed<T>> for Fault {
    ghost from_gives = { λ _ r. r ≡ Memory };

    fn from(_e: AllocFailed<T>) -> Fault {
        Fault::Memory
    }
}

impl fmt::Display for Fault {
    ghost output = { λ fault. Some (message_of fault) };

    fn fmt<W: fmt::Write>(&self, f: &mut fmt::Formatter<W>) -> fmt::Result {
        f.write_str(message(*self))
    }
}

impl Error for Fault {}

// The first line that cannot be read, counted from 1.
#[derive(Clone, Copy, Debug)]
pub struct BadDay {
    pub line: usize,
    pub fault: Fault,
}

impl fmt::Display for BadDay {
    ghost output = { λ bad. Some (codes "line " ++ decimal bad.line ++ codes ": " ++ message_of bad.fault) };

    fn fmt<W: fmt::Write>(&self, f: &mut fmt::Formatter<W>) -> fmt::Result {
        write!(f, "line {}: {}", self.line, self.fault)
    }
}

impl Error for BadDay {}
