// How serving one thing ends, and what can go wrong.
ghost use Rattle.std.specs.Prelude.{◌≡◌, Some};
ghost use Rattle.serve.specs.Faults.{said_of};
ghost use Rattle.serve.specs.declared.ended.Fault.TheVariants.{Memory};

use std::alloc::AllocError;
use std::error::Error;
use std::fmt;

#[derive(Clone, Copy)]
pub enum Ended {
    // The machine waits for the next.
    Waits,
    // It waits, and on the way it said that the last window has gone.
    Over,
}

#[derive(Clone, Copy, Debug)]
pub enum Fault {
    // No memory is left for the log.
    Memory,
    // The machine did not come to wait within the steps it was given.
    Stuck,
    // What was asked does not fit: nothing was done.
    Refused,
}

impl fmt::Display for Fault {
    ghost output = { λ fault. Some (said_of fault) };

    fn fmt<W: fmt::Write>(&self, f: &mut fmt::Formatter<W>) -> fmt::Result {
        f.write_str(match self {
            Fault::Memory => "memory allocation failed",
            Fault::Stuck => "the machine does not come to wait",
            Fault::Refused => "the machine refuses its memory",
        })
    }
}

impl Error for Fault {}

impl From<AllocError> for Fault {
    ghost from_gives = { λ _ r. r ≡ Memory };

    fn from(_e: AllocError) -> Fault {
        Fault::Memory
    }
}
