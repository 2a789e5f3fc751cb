// A terminal with its cells and its answer, while bytes are written: what control functions work on.
ghost use Rattle.std.specs.Prelude.{◌≡◌, ◌*◌, length};

use crate::state::Terminal;
use output::Buffer;

// The answer is lent: of a Buffer within a struct with a `&mut` nothing is known once the struct is gone.
#[derive(Drop)]
pub(crate) struct Screen<'a, 'b, 'c> {
    pub term: Terminal,
    pub cells: &'a mut [u64],
    pub answer: &'b mut Buffer<'c>,
    ghost whole: { length cells.now ≡ term.size.high * term.size.wide },
}
