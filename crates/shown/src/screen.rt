// A terminal's screen written out: each row on a line without the blanks at its end, and then where the cursor is.
ghost use Rattle.std.specs.Prelude.{◌≡◌, Some};
ghost use Rattle.shown.specs.declared.screen.Unwritten.TheVariants.{NoMemory};
ghost use Rattle.shown.specs.Told.{Told, unwritten_says};

use crate::line::{write_cursor, write_rows};
use output::Buffer;
use std::alloc::AllocError;
use std::error::Error;
use std::fmt;
use terminal::state::Terminal;

// Why nothing was written: the cells are not the screen's, or there is no memory.
#[derive(Clone, Copy, PartialEq, Eq, Debug)]
pub enum Unwritten {
    WrongCells,
    NoMemory,
}

impl fmt::Display for Unwritten {
    ghost output = { λ u. Some (unwritten_says u) };

    fn fmt<W: fmt::Write>(&self, f: &mut fmt::Formatter<W>) -> fmt::Result {
        match self {
            Unwritten::WrongCells => write!(f, "the cells are not the screen's"),
            Unwritten::NoMemory => write!(f, "out of memory"),
        }
    }
}

impl Error for Unwritten {}

impl From<AllocError> for Unwritten {
    ghost from_gives = { λ _ u. u ≡ NoMemory };

    fn from(_: AllocError) -> Self {
        Self::NoMemory
    }
}

pub fn write_screen(out: &mut Vec<u8>, term: &Terminal, cells: &[u64]) -> Result<(), Unwritten>
    ensures { Told out.old.items term.now cells.now result out.new.items }
{
    if cells.len() != term.size.cells() {
        return Err(Unwritten::WrongCells);
    }
    let mut text = [0; 12288];
    let mut buffer = Buffer {
        bytes: &mut text,
        len: 0,
    };
    write_rows(&mut buffer, term.size, cells);
    write_cursor(&mut buffer, term);
    let len = buffer.len;
    out.extend_from_slice(&text[..len])?;
    Ok(())
}
