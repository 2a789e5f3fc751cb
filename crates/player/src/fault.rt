// What can go wrong while a day is played. What serving says of its faults is said here in the player's words.
ghost use Rattle.std.specs.Prelude.{◌≡◌, Some};
ghost use Rattle.player.specs.Faults.{fault_from, fault_says};
ghost use Rattle.player.specs.declared.fault.Fault.TheVariants.{Memory};

use std::alloc::AllocError;
use std::error::Error;
use std::fmt;

#[derive(Clone, Copy, PartialEq, Eq, Debug)]
pub enum Fault {
    // No memory is left.
    Memory,
    // The machine did not come to wait.
    Stuck,
    // It refused its memory, or what came.
    Refused,
    // What came is no size of a screen.
    NoSize,
    // The cells are not as many as the screen's.
    WrongCells,
    // It wrote more bytes than are granted.
    TooMany,
    // There is no counting any further.
    TooLong,
}

impl From<AllocError> for Fault {
    ghost from_gives = { λ _ r. r ≡ Memory };

    fn from(_e: AllocError) -> Fault {
        Fault::Memory
    }
}

impl From<serve::Fault> for Fault {
    ghost from_gives = { λ e r. r ≡ fault_from e };

    fn from(e: serve::Fault) -> Fault {
        match e {
            serve::Fault::Memory => Fault::Memory,
            serve::Fault::Stuck => Fault::Stuck,
            serve::Fault::Refused => Fault::Refused,
        }
    }
}

impl fmt::Display for Fault {
    ghost output = { λ fault. Some (fault_says fault) };

    fn fmt<W: fmt::Write>(&self, f: &mut fmt::Formatter<W>) -> fmt::Result {
        f.write_str(says(*self))
    }
}

impl Error for Fault {}

pub fn says(fault: Fault) -> &'static str
    ensures { result.now ≡ fault_says fault }
{
    match fault {
        Fault::Memory => "no memory is left",
        Fault::Stuck => "the machine does not come to wait",
        Fault::Refused => "the machine refuses its memory",
        Fault::NoSize => "a screen has 1 to 200 columns and 1 to 60 rows",
        Fault::WrongCells => "the cells are not the screen's",
        Fault::TooMany => "more bytes were written than are granted",
        Fault::TooLong => "the numbers of this day are too large",
    }
}
