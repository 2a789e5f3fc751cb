// Control functions that move the cursor, set the scroll region, or save and restore. Cells and answers stay, whatever they are.
ghost use Rattle.std.specs.Prelude.{suc, ◌+◌, ◌-◌, ◌*◌, ◌/◌, ◌<◌};
ghost use Rattle.meaning.specs.Words.{smaller};
ghost use Rattle.meaning.specs.Screen.{at, goes_up, goes_down, goes_to, region, save, restore};
ghost use Rattle.terminal.specs.Does.{Does};

use crate::screen::Screen;
use crate::state::{Cursor, Kept};

impl Screen<'_, '_, '_> {
    // To a place on the screen; a pending wrap is over.
    pub(crate) fn move_to(&mut self, row: usize, col: usize)
        requires { (row < self.old.term.size.high) × (col < self.old.term.size.wide) }
        ensures { Does self.old self.new (λ t. at t row col) }
    {
        self.term.cursor = Cursor {
            row,
            col,
            pending: false,
        };
    }

    // BS
    pub(crate) fn backspace(&mut self)
        ensures { Does self.old self.new (λ t. at t t.row (t.col - 1)) }
    {
        self.cursor_back(1);
    }

    // HT
    pub(crate) fn horizontal_tab(&mut self)
        ensures { Does self.old self.new (λ t. at t t.row (smaller (t.wide - 1) (8 * suc (t.col / 8)))) }
    {
        self.cursor_column(8 * (self.term.cursor.col / 8 + 1));
    }

    // CR
    pub(crate) fn carriage_return(&mut self)
        ensures { Does self.old self.new (λ t. at t t.row 0) }
    {
        self.move_to(self.term.cursor.row, 0);
    }

    // CUU
    pub(crate) fn cursor_up(&mut self, k: usize)
        ensures { Does self.old self.new (λ t. goes_up t k) }
    {
        let Cursor { row, col, .. } = self.term.cursor;
        let limit = if self.term.top <= row {
            self.term.top
        } else {
            0
        };
        self.move_to(row.saturating_sub(k).max(limit), col);
    }

    // CUD
    pub(crate) fn cursor_down(&mut self, k: usize)
        ensures { Does self.old self.new (λ t. goes_down t k) }
    {
        let Cursor { row, col, .. } = self.term.cursor;
        let limit = if row <= self.term.bottom {
            self.term.bottom
        } else {
            self.term.size.high - 1
        };
        self.move_to(row.saturating_add(k).min(limit), col);
    }

    // CUF
    pub(crate) fn cursor_forward(&mut self, k: usize)
        ensures { Does self.old self.new (λ t. at t t.row (smaller (t.wide - 1) (t.col + k))) }
    {
        self.cursor_column(self.term.cursor.col.saturating_add(k));
    }

    // CUB
    pub(crate) fn cursor_back(&mut self, k: usize)
        ensures { Does self.old self.new (λ t. at t t.row (t.col - k)) }
    {
        let Cursor { row, col, .. } = self.term.cursor;
        self.move_to(row, col.saturating_sub(k));
    }

    // CNL
    pub(crate) fn next_line(&mut self, k: usize)
        ensures { Does self.old self.new (λ t. at (goes_down t k) (goes_down t k).row 0) }
    {
        self.cursor_down(k);
        self.carriage_return();
    }

    // CPL
    pub(crate) fn previous_line(&mut self, k: usize)
        ensures { Does self.old self.new (λ t. at (goes_up t k) (goes_up t k).row 0) }
    {
        self.cursor_up(k);
        self.carriage_return();
    }

    // CHA, the column counted from 0
    pub(crate) fn cursor_column(&mut self, col: usize)
        ensures { Does self.old self.new (λ t. at t t.row (smaller (t.wide - 1) col)) }
    {
        self.move_to(self.term.cursor.row, col.min(self.term.size.wide - 1));
    }

    // CUP, row and column counted from 0
    #[tactic(auto, using(std::proofs::lemmas::Bool::Decides::nat_tests), unfolding(meaning::specs::Screen::goes_to))]
    pub(crate) fn cursor_position(&mut self, r: usize, c: usize)
        ensures { Does self.old self.new (λ t. goes_to t r c) }
    {
        let row = if self.term.modes.origin {
            self.term.top.saturating_add(r).min(self.term.bottom)
        } else {
            r.min(self.term.size.high - 1)
        };
        self.move_to(row, c.min(self.term.size.wide - 1));
    }

    // DECSTBM, rows counted from 1, the last 0 for the screen's last
    pub(crate) fn set_scroll_region(&mut self, first: usize, last: usize)
        ensures { Does self.old self.new (λ t. region t first last) }
    {
        let end = if last == 0 {
            self.term.size.high
        } else {
            last.min(self.term.size.high)
        };
        if first < end {
            // In a copy, since between the two writes the first row may be below the last.
            let mut term = self.term;
            term.top = first.saturating_sub(1);
            term.bottom = end - 1;
            self.term = term;
            self.cursor_position(0, 0);
        }
    }

    // DECSC
    pub(crate) fn save_cursor(&mut self)
        ensures { Does self.old self.new save }
    {
        let Cursor { row, col, .. } = self.term.cursor;
        self.term.kept = Kept {
            row,
            col,
            rendition: self.term.rendition,
            origin: self.term.modes.origin,
        };
    }

    // DECRC
    pub(crate) fn restore_cursor(&mut self)
        ensures { Does self.old self.new restore }
    {
        let Kept {
            row,
            col,
            rendition,
            origin,
        } = self.term.kept;
        self.move_to(
            row.min(self.term.size.high - 1),
            col.min(self.term.size.wide - 1),
        );
        self.term.rendition = rendition;
        self.term.modes.origin = origin;
    }
}
