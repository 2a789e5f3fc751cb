// Control functions that change cells within rows: inserting, deleting, erasing. The answers stay, whatever they are.
ghost use Rattle.std.specs.Prelude.{◌≡◌, ◌+◌, ◌<◌, MatchOption};
ghost use Rattle.meaning.specs.Screen.{change_row, opened, closed, wiped, wipe_row, wipe_all};
ghost use Rattle.terminal.specs.Extents.{number_of};
ghost use Rattle.terminal.specs.Does.{Does};

use crate::screen::Screen;
use crate::state::Cursor;
use grid::{line, rows};

// What of a line (EL) or of a display (ED) is erased.
#[derive(Clone, Copy, PartialEq, Eq)]
pub(crate) enum Extent {
    // From the cursor on.
    ToEnd,
    // Up to the cursor, and with it.
    ToStart,
    All,
}

impl Extent {
    // By the parameter of EL or ED; none if that is no such number.
    pub(crate) fn of(number: usize) -> Option<Extent>
        ensures { MatchOption result (2 < number) (λ e. number ≡ number_of e) }
    {
        match number {
            0 => Some(Extent::ToEnd),
            1 => Some(Extent::ToStart),
            2 => Some(Extent::All),
            _ => None,
        }
    }
}

impl Screen<'_, '_, '_> {
    // ICH
    pub(crate) fn insert_characters(&mut self, k: usize)
        ensures { Does self.old self.new (λ t. change_row t (opened t.wide t.col k)) }
    {
        line::insert_blanks(self.cells, self.term.size, self.term.cursor.place(), k);
    }

    // DCH
    pub(crate) fn delete_characters(&mut self, k: usize)
        ensures { Does self.old self.new (λ t. change_row t (closed t.wide t.col k)) }
    {
        line::delete_cells(self.cells, self.term.size, self.term.cursor.place(), k);
    }

    // ECH
    pub(crate) fn erase_characters(&mut self, k: usize)
        requires { k < 65536 }
        ensures { Does self.old self.new (λ t. change_row t (wiped t.col (t.col + k))) }
    {
        let col = self.term.cursor.col;
        line::erase(
            self.cells,
            self.term.size,
            self.term.cursor.row,
            col,
            col + k,
        );
    }

    // EL
    pub(crate) fn erase_in_line(&mut self, part: Extent)
        ensures { Does self.old self.new (λ t. wipe_row t (number_of part)) }
    {
        let Cursor { row, col, .. } = self.term.cursor;
        match part {
            Extent::ToEnd => line::erase(self.cells, self.term.size, row, col, self.term.size.wide),
            Extent::ToStart => line::erase(self.cells, self.term.size, row, 0, col + 1),
            Extent::All => line::erase(self.cells, self.term.size, row, 0, self.term.size.wide),
        };
    }

    // ED
    pub(crate) fn erase_in_display(&mut self, part: Extent)
        ensures { Does self.old self.new (λ t. wipe_all t (number_of part)) }
    {
        let row = self.term.cursor.row;
        match part {
            Extent::ToEnd => {
                self.erase_in_line(part);
                rows::erase_rows(self.cells, self.term.size, row + 1, self.term.size.high);
            }
            Extent::ToStart => {
                self.erase_in_line(part);
                rows::erase_rows(self.cells, self.term.size, 0, row);
            }
            Extent::All => {
                rows::erase_rows(self.cells, self.term.size, 0, self.term.size.high);
            }
        }
    }
}
