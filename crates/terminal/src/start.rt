// A terminal as it comes up, a full reset, and another size.
ghost use Rattle.std.specs.Prelude.{◌≡◌, ℕ, true, false, List, MatchOption};
ghost use Rattle.meaning.specs.Screen.{fresh, with_answer, blank_row};
ghost use Rattle.meaning.specs.Words.{so_many};
ghost use Rattle.grid.specs.Cells.{rows_of};
ghost use Rattle.grid.specs.Edits.{on_screen};
ghost use Rattle.terminal.specs.Sizes.{Resized};
ghost use Rattle.terminal.specs.Does.{Does};
ghost use Rattle.terminal.specs.Terms.{term_on};

use crate::screen::Screen;
use crate::state::{Cursor, Kept, Modes, Parser, Terminal};
use grid::cell::Rendition;
use grid::resize::resize;
use grid::rows;
use grid::size::Size;

// What DECRC finds where DECSC has kept nothing.
const NOTHING_KEPT: Kept = Kept {
    row: 0,
    col: 0,
    rendition: Rendition::PLAIN,
    origin: false,
};

impl Terminal {
    fn at_first(size: Size) -> Terminal
        ensures size { result.size ≡ size }
        ensures state { (xs a : List ℕ) → rows_of size.wide size.high xs ≡ so_many size.high (blank_row size.wide) → term_on result xs a ≡ with_answer (fresh size.wide size.high) a }
    {
        Terminal {
            size,
            cursor: Cursor {
                row: 0,
                col: 0,
                pending: false,
            },
            rendition: Rendition::PLAIN,
            top: 0,
            bottom: size.high - 1,
            modes: Modes {
                insert: false,
                autowrap: true,
                origin: false,
                visible: true,
            },
            kept: NOTHING_KEPT,
            parser: Parser::Ground,
        }
    }

    // A terminal of a size with blank cells; none, and the cells as they were, if those are not as many as the size asks for.
    pub fn start(size: Size, cells: &mut [u64]) -> Option<Terminal>
        ensures { MatchOption result
            ((on_screen size.wide size.high cells.old ≡ false) × (cells.new ≡ cells.old))
            (λ t. (on_screen size.wide size.high cells.old ≡ true) × (t.size ≡ size) × ((a : List ℕ) → term_on t cells.new a ≡ with_answer (fresh size.wide size.high) a)) }
    {
        if cells.len() != size.cells() {
            return None;
        }
        rows::erase_rows(cells, size, 0, size.high);
        Some(Terminal::at_first(size))
    }

    // Another size, from the old cells into new ones; false, with nothing changed, if either are not as many as their size asks for.
    pub fn resize(&mut self, old: &[u64], size: Size, new: &mut [u64]) -> bool
        ensures { Resized self.old old.now size.wide size.high new.old result self.new new.new }
    {
        let Cursor { row, col, .. } = self.cursor;
        let skip = (row + 1).saturating_sub(size.high);
        if !resize(old, self.size, new, size, skip) {
            return false;
        }
        *self = Terminal {
            size,
            cursor: Cursor {
                row: row - skip,
                col: col.min(size.wide - 1),
                pending: false,
            },
            rendition: self.rendition,
            top: 0,
            bottom: size.high - 1,
            modes: Modes {
                origin: false,
                ..self.modes
            },
            kept: NOTHING_KEPT,
            parser: self.parser,
        };
        true
    }
}

impl Screen<'_, '_, '_> {
    // RIS
    pub(crate) fn reset(&mut self)
        ensures { Does self.old self.new (λ t. with_answer (fresh t.wide t.high) t.answer) }
    {
        let size = self.term.size;
        rows::erase_rows(self.cells, size, 0, size.high);
        self.term = Terminal::at_first(size);
    }
}
