// Control characters, and escape sequences.
ghost use Rattle.std.specs.Prelude.{◌≡◌};
ghost use Rattle.meaning.specs.Screen.{escape};
ghost use Rattle.meaning.specs.Bytes.{control, byte_read, done_escape, is_string, low_byte};
ghost use Rattle.terminal.specs.Parsing.{string_read};
ghost use Rattle.terminal.specs.Does.{Does};
ghost use Rattle.terminal.specs.Terms.{reading_of};

use crate::screen::Screen;
use crate::state::{Parameters, Parser};

// A byte below 32 in a control string.
fn string_byte(b: u8) -> Parser
    ensures { reading_of result ≡ string_read b }
{
    match b {
        b'\x1b' => Parser::TextEnd,
        b'\x07' => Parser::Ground,
        _ => Parser::Text,
    }
}

impl Screen<'_, '_, '_> {
    fn control_character(&mut self, b: u8)
        ensures { Does self.old self.new (λ t. control t b) }
    {
        match b {
            b'\x08' => self.backspace(),
            b'\t' => self.horizontal_tab(),
            b'\n'..=b'\x0c' => self.index(),
            b'\r' => self.carriage_return(),
            _ => {}
        }
    }

    // The final byte of an escape sequence.
    fn escape_function(&mut self, b: u8)
        ensures { Does self.old self.new (λ t. done_escape t b) }
    {
        match b {
            b'7' => self.save_cursor(),
            b'8' => self.restore_cursor(),
            b'D' => self.index(),
            b'E' => self.new_line(),
            b'M' => self.reverse_index(),
            b'c' => self.reset(),
            _ => {}
        }
    }

    // A byte after ESC.
    pub(crate) fn escape_byte(&mut self, b: u8)
        ensures { Does self.old self.new (λ t. byte_read t escape b) }
    {
        match b {
            b'[' => self.term.parser = Parser::Sequence(false, Parameters::none()),
            b']' => self.term.parser = Parser::Text,
            b' '..=b'/' => self.term.parser = Parser::Ignored,
            _ => {
                self.term.parser = Parser::Ground;
                self.escape_function(b);
            }
        }
    }

    fn in_string(&self) -> bool
        ensures { result ≡ is_string (reading_of self.now.term.parser) }
    {
        matches!(self.term.parser, Parser::Text | Parser::TextEnd)
    }

    // A byte below 32.
    pub(crate) fn control_byte(&mut self, b: u8)
        ensures { Does self.old self.new (λ t. low_byte t b) }
    {
        if self.in_string() {
            self.term.parser = string_byte(b);
            return;
        }
        match b {
            b'\x1b' => self.term.parser = Parser::Escape,
            b'\x18' | b'\x1a' => self.term.parser = Parser::Ground,
            _ => self.control_character(b),
        }
    }
}
