// Bytes from a program, one after the other: the parser's states.
ghost use Rattle.std.specs.Prelude.{◌≡◌, ◌*◌, true, false, length, MatchOption};
ghost use Rattle.meaning.specs.Bytes.{byte_of_sequence, byte_read, byte, written};
ghost use Rattle.terminal.specs.Answer.{can_feed, Fed};
ghost use Rattle.terminal.specs.Parsing.{parameter_read};
ghost use Rattle.terminal.specs.Does.{Says, HasRoom};
ghost use Rattle.terminal.specs.Terms.{numbers_of, begun_of, reading_of};

use crate::screen::Screen;
use crate::state::{Parameters, Parser, Terminal};
use output::Buffer;

// A byte below 64 in a control sequence.
fn parameter_byte(private: bool, p: Parameters, b: u8) -> Parser
    ensures { reading_of result ≡ parameter_read private (numbers_of p) (begun_of p.begun) b }
{
    match b {
        b'0'..=b'9' => Parser::Sequence(private, p.digit(b - b'0')),
        b';' => Parser::Sequence(private, p.end()),
        b'?' if !private && p.is_empty() => Parser::Sequence(true, Parameters::none()),
        _ => Parser::Ignored,
    }
}

impl Screen<'_, '_, '_> {
    // A byte from 32 to 126 in a control sequence.
    fn sequence_byte(&mut self, private: bool, p: Parameters, b: u8)
        requires { HasRoom 10 self.old }
        ensures { Says 10 self.old self.new (λ t. byte_of_sequence t private (numbers_of p) (begun_of p.begun) b) }
    {
        if b < b'@' {
            self.term.parser = parameter_byte(private, p, b);
            return;
        }
        self.term.parser = Parser::Ground;
        let all = p.all();
        self.dispatch(private, &all.list[..all.count], b);
    }

    // A byte from 32 on but DEL.
    fn read(&mut self, b: u8)
        requires { HasRoom 10 self.old }
        ensures { Says 10 self.old self.new (λ t. byte_read t t.reading b) }
    {
        match self.term.parser {
            Parser::Ground => self.print(if b < 128 { b } else { b'?' }),
            Parser::Escape => self.escape_byte(b),
            Parser::Sequence(private, p) if b < 128 => self.sequence_byte(private, p, b),
            Parser::Sequence(_, _) => self.term.parser = Parser::Ignored,
            Parser::Ignored if matches!(b, b'@'..=b'~') => self.term.parser = Parser::Ground,
            Parser::TextEnd if b == b'\\' => self.term.parser = Parser::Ground,
            Parser::TextEnd => self.term.parser = Parser::Text,
            Parser::Ignored | Parser::Text => {}
        }
    }

    fn feed_byte(&mut self, b: u8)
        requires { HasRoom 10 self.old }
        ensures { Says 10 self.old self.new (λ t. byte t b) }
    {
        match b {
            0..=31 => self.control_byte(b),
            127 => {}
            _ => self.read(b),
        }
    }

    fn write(&mut self, bytes: &[u8])
        requires { HasRoom (10 * length bytes.now) self.old }
        ensures says { Says (10 * length bytes.now) self.old self.new (λ t. written t bytes.now) }
        ensures wide { self.new.term.size.wide ≡ self.old.term.size.wide }
        ensures high { self.new.term.size.high ≡ self.old.term.size.high }
    {
        for b in bytes {
            self.feed_byte(*b);
        }
    }
}

impl Terminal {
    // Up to 4,096 bytes. The answer comes into the lent row, and how long it is is returned; none, with nothing changed, if the cells are not the
    // screen's, there are more bytes, or the row is shorter than ten times as many.
    pub fn feed(&mut self, cells: &mut [u64], bytes: &[u8], out: &mut [u8]) -> Option<usize>
        ensures { MatchOption result
            ((can_feed self.old cells.old bytes.now out.old ≡ false) × (self.new ≡ self.old) × (cells.new ≡ cells.old) × (out.new ≡ out.old))
            (λ n. (can_feed self.old cells.old bytes.now out.old ≡ true) × Fed self.old cells.old bytes.now out.old n self.new cells.new out.new) }
    {
        if cells.len() != self.size.cells() || bytes.len() > 4096 || out.len() < 10 * bytes.len() {
            return None;
        }
        let mut answer = Buffer { bytes: out, len: 0 };
        let mut screen = Screen {
            term: *self,
            cells,
            answer: &mut answer,
        };
        screen.write(bytes);
        *self = screen.term;
        Some(answer.len)
    }
}
