// Device status reports (DSR): what the terminal answers to the program that writes. They are pushed byte by byte: a text that is copied in would keep a row
// of answers which its owner never reads, and the compiler would clear it.
ghost use Rattle.std.specs.Prelude.{◌≡◌, ℕ, ◌+◌, ◌≤◌, List, [], ◌∷◌, length};
ghost use Rattle.meaning.specs.Bytes.{place_told, answers};
ghost use Rattle.output.specs.Added.{Adds};
ghost use Rattle.terminal.specs.Answer.{Behind, said};
ghost use Rattle.terminal.specs.Terms.{term_on};

use crate::state::Terminal;
use output::Buffer;

impl Terminal {
    // CPR: row and column from 1, the row as CUP counts it
    fn report_position(&self, answer: &mut Buffer)
        requires { answer.old.len + 10 ≤ length answer.old.bytes.now }
        ensures added { (xs a : List ℕ) → Adds answer.old answer.new (place_told (term_on self.now xs a)) }
        ensures most { answer.new.len ≤ answer.old.len + 10 }
    {
        let first = if self.modes.origin { self.top } else { 0 };
        let row = self.cursor.row.saturating_sub(first) + 1;
        answer.push(b'\x1b');
        answer.push(b'[');
        answer.number(row);
        answer.push(b';');
        answer.number(self.cursor.col + 1);
        answer.push(b'R');
    }

    // All is well.
    fn report_ready(&self, answer: &mut Buffer)
        requires { answer.old.len + 10 ≤ length answer.old.bytes.now }
        ensures added { Adds answer.old answer.new (27 ∷ 91 ∷ 48 ∷ 110 ∷ []) }
        ensures most { answer.new.len ≤ answer.old.len + 10 }
    {
        answer.push(b'\x1b');
        answer.push(b'[');
        answer.push(b'0');
        answer.push(b'n');
    }

    // DSR. Its parameter is read where it is answered, as a final byte is; an enum between would be read once more.
    pub(crate) fn device_status(&self, question: usize, answer: &mut Buffer)
        requires { answer.old.len + 10 ≤ length answer.old.bytes.now }
        ensures term { (xs : List ℕ) → term_on self.now xs (said answer.new) ≡ answers (term_on self.now xs (said answer.old)) question }
        ensures answer { Behind 10 answer.old answer.new }
    {
        match question {
            6 => self.report_position(answer),
            5 => self.report_ready(answer),
            _ => {}
        }
    }
}
