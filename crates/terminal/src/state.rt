// A terminal's state but for its cells, which are lent beside it. This file cites no definition of specs/.
ghost use Rattle.std.specs.Prelude.{◌≡◌, ◌<◌, ◌≤◌};

use grid::cell::Rendition;
use grid::size::{Place, Size};

// Where the next character goes; `pending` is a pending wrap.
#[derive(Clone, Copy)]
pub struct Cursor {
    pub row: usize,
    pub col: usize,
    pub pending: bool,
}

impl Cursor {
    pub(crate) fn place(self) -> Place
        ensures { (result.row ≡ self.row) × (result.col ≡ self.col) }
    {
        Place {
            row: self.row,
            col: self.col,
        }
    }
}

#[derive(Clone, Copy)]
pub struct Modes {
    pub insert: bool,
    pub autowrap: bool,
    pub origin: bool,
    pub visible: bool,
}

// What DECSC keeps for DECRC.
#[derive(Clone, Copy)]
pub struct Kept {
    pub row: usize,
    pub col: usize,
    pub rendition: Rendition,
    pub origin: bool,
}

// The parameters of a control sequence: those that are whole, and the one that has begun.
// An array and a count, and no vector, since a Terminal is Copy and lies in fixed memory.
#[derive(Clone, Copy)]
pub struct Parameters {
    pub list: [u16; 16],
    pub count: usize,
    pub begun: Option<u16>,
    ghost count_ok: { count ≤ 16 },
}

#[derive(Clone, Copy)]
pub enum Parser {
    Ground,
    Escape,
    // Private or not, and the parameters so far.
    Sequence(bool, Parameters),
    // In a sequence that is ignored up to its final byte.
    Ignored,
    // In a control string, and after ESC in one.
    Text,
    TextEnd,
}

#[derive(Clone, Copy)]
pub struct Terminal {
    pub size: Size,
    pub cursor: Cursor,
    pub rendition: Rendition,
    // The scroll region, its first and last row.
    pub top: usize,
    pub bottom: usize,
    pub modes: Modes,
    pub kept: Kept,
    pub parser: Parser,
    ghost row_ok: { cursor.row < size.high },
    ghost col_ok: { cursor.col < size.wide },
    ghost top_ok: { top ≤ bottom },
    ghost bottom_ok: { bottom < size.high },
}
