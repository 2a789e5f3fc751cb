// Set mode (SM) and reset mode (RM), with the private modes.
ghost use Rattle.meaning.specs.Bytes.{mode_one, modes};
ghost use Rattle.terminal.specs.Does.{Does};

use crate::screen::Screen;

impl Screen<'_, '_, '_> {
    // A mode is named by its number here alone.
    fn set_mode(&mut self, on: bool, private: bool, n: u16)
        ensures { Does self.old self.new (λ t. mode_one on private t n) }
    {
        match (private, n) {
            (true, 6) => {
                self.term.modes.origin = on;
                self.cursor_position(0, 0);
            }
            (true, 7) => self.term.modes.autowrap = on,
            (true, 25) => self.term.modes.visible = on,
            (false, 4) => self.term.modes.insert = on,
            _ => {}
        }
    }

    pub(crate) fn set_modes(&mut self, on: bool, private: bool, numbers: &[u16])
        ensures { Does self.old self.new (λ t. modes on private t numbers.now) }
    {
        for n in numbers {
            self.set_mode(on, private, *n);
        }
    }
}
