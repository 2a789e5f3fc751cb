// Control functions that move rows of cells. The answers stay, whatever they are.
ghost use Rattle.meaning.specs.Screen.{at, row_on, row_back, up_by, down_by, lines_in, lines_out};
ghost use Rattle.terminal.specs.Does.{Does};

use crate::screen::Screen;
use grid::rows;

impl Screen<'_, '_, '_> {
    // SU
    pub(crate) fn scroll_up(&mut self, k: usize)
        ensures { Does self.old self.new (λ t. up_by t k) }
    {
        rows::scroll_up(
            self.cells,
            self.term.size,
            self.term.top,
            self.term.bottom,
            k,
        );
    }

    // SD
    pub(crate) fn scroll_down(&mut self, k: usize)
        ensures { Does self.old self.new (λ t. down_by t k) }
    {
        rows::scroll_down(
            self.cells,
            self.term.size,
            self.term.top,
            self.term.bottom,
            k,
        );
    }

    // IND
    pub(crate) fn index(&mut self)
        ensures { Does self.old self.new row_on }
    {
        self.term.cursor.pending = false;
        if self.term.cursor.row == self.term.bottom {
            rows::scroll_up(
                self.cells,
                self.term.size,
                self.term.top,
                self.term.bottom,
                1,
            );
        } else {
            self.term.cursor.row = (self.term.cursor.row + 1).min(self.term.size.high - 1);
        }
    }

    // NEL, and a pending wrap: to the beginning of the next row.
    pub(crate) fn new_line(&mut self)
        ensures { Does self.old self.new (λ t. at (row_on t) (row_on t).row 0) }
    {
        self.index();
        self.term.cursor.col = 0;
        self.term.cursor.pending = false;
    }

    // RI
    pub(crate) fn reverse_index(&mut self)
        ensures { Does self.old self.new row_back }
    {
        self.term.cursor.pending = false;
        if self.term.cursor.row == self.term.top {
            rows::scroll_down(
                self.cells,
                self.term.size,
                self.term.top,
                self.term.bottom,
                1,
            );
        } else {
            self.term.cursor.row = self.term.cursor.row.saturating_sub(1);
        }
    }

    // IL
    pub(crate) fn insert_lines(&mut self, k: usize)
        ensures { Does self.old self.new (λ t. lines_in t k) }
    {
        let row = self.term.cursor.row;
        if self.term.top <= row && row <= self.term.bottom {
            rows::scroll_down(self.cells, self.term.size, row, self.term.bottom, k);
            self.move_to(row, 0);
        }
    }

    // DL
    pub(crate) fn delete_lines(&mut self, k: usize)
        ensures { Does self.old self.new (λ t. lines_out t k) }
    {
        let row = self.term.cursor.row;
        if self.term.top <= row && row <= self.term.bottom {
            rows::scroll_up(self.cells, self.term.size, row, self.term.bottom, k);
            self.move_to(row, 0);
        }
    }
}
