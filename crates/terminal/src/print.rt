// Printable characters.
ghost use Rattle.meaning.specs.Screen.{put_sign, step_right, printed};
ghost use Rattle.terminal.specs.Does.{Does};

use crate::screen::Screen;
use crate::state::Cursor;
use grid::cell::Glyph;
use grid::line;

impl Screen<'_, '_, '_> {
    // A character at the cursor, which stays.
    fn put(&mut self, sign: u8)
        ensures { Does self.old self.new (λ t. put_sign t sign) }
    {
        let place = self.term.cursor.place();
        if self.term.modes.insert {
            line::insert_blanks(self.cells, self.term.size, place, 1);
        }
        let glyph = Glyph {
            sign: sign as u32,
            rendition: self.term.rendition,
        };
        line::put(self.cells, self.term.size, place, u64::from(glyph));
    }

    // One column on; at the last the cursor stays, with a wrap pending if autowrap is set.
    fn advance(&mut self)
        ensures { Does self.old self.new step_right }
    {
        let Cursor { row, col, .. } = self.term.cursor;
        if col + 1 < self.term.size.wide {
            self.move_to(row, col + 1);
        } else {
            self.term.cursor.pending = self.term.modes.autowrap;
        }
    }

    pub(crate) fn print(&mut self, sign: u8)
        ensures { Does self.old self.new (λ t. printed t sign) }
    {
        if self.term.cursor.pending {
            self.new_line();
        }
        self.put(sign);
        self.advance();
    }
}
