// Control sequences (CSI): from a sequence's final byte to its control function.
ghost use Rattle.std.specs.Prelude.{false, [], ◌∷◌, ◌≢◌};
ghost use Rattle.meaning.specs.Bytes.{done_sequence};
ghost use Rattle.meaning.specs.Screen.{styled, with_style};
ghost use Rattle.meaning.specs.Words.{none_of, pick};
ghost use Rattle.terminal.specs.Does.{Does, Says, HasRoom};

use crate::edit::Extent;
use crate::parameters::{count_at, value_at};
use crate::screen::Screen;
use crate::sgr::select_graphic_rendition;

impl Screen<'_, '_, '_> {
    // SGR; no parameter counts as 0
    fn set_rendition(&mut self, ps: &[u16])
        ensures { Does self.old self.new (λ t. with_style t (styled t.style (pick (none_of ps.now) (0 ∷ []) ps.now))) }
    {
        if ps.is_empty() {
            self.term.rendition = select_graphic_rendition(self.term.rendition, &[0]);
        } else {
            self.term.rendition = select_graphic_rendition(self.term.rendition, ps);
        }
    }

    // All but DSR, which answers.
    fn control_function(&mut self, ps: &[u16], b: u8)
        requires { b ≢ 110 }
        ensures { Does self.old self.new (λ t. done_sequence t false ps.now b) }
    {
        let k = count_at(ps, 0);
        match b {
            b'@' => self.insert_characters(k),
            b'A' => self.cursor_up(k),
            b'B' => self.cursor_down(k),
            b'C' => self.cursor_forward(k),
            b'D' => self.cursor_back(k),
            b'E' => self.next_line(k),
            b'F' => self.previous_line(k),
            b'G' => self.cursor_column(k - 1),
            b'H' | b'f' => self.cursor_position(k - 1, count_at(ps, 1) - 1),
            b'J' => if let Some(part) = Extent::of(value_at(ps, 0)) {
                self.erase_in_display(part);
            },
            b'K' => if let Some(part) = Extent::of(value_at(ps, 0)) {
                self.erase_in_line(part);
            },
            b'L' => self.insert_lines(k),
            b'M' => self.delete_lines(k),
            b'P' => self.delete_characters(k),
            b'S' => self.scroll_up(k),
            b'T' => self.scroll_down(k),
            b'X' => self.erase_characters(k),
            b'd' => self.cursor_position(k - 1, self.term.cursor.col),
            b'h' => self.set_modes(true, false, ps),
            b'l' => self.set_modes(false, false, ps),
            b'm' => self.set_rendition(ps),
            b'r' => self.set_scroll_region(k, value_at(ps, 1)),
            b's' => self.save_cursor(),
            b'u' => self.restore_cursor(),
            _ => {}
        }
    }

    pub(crate) fn dispatch(&mut self, private: bool, ps: &[u16], b: u8)
        requires { HasRoom 10 self.old }
        ensures { Says 10 self.old self.new (λ t. done_sequence t private ps.now b) }
    {
        match (private, b) {
            (true, b'h') => self.set_modes(true, true, ps),
            (true, b'l') => self.set_modes(false, true, ps),
            (true, _) => {}
            (false, b'n') => self.term.device_status(value_at(ps, 0), self.answer),
            (false, _) => self.control_function(ps, b),
        }
    }
}
