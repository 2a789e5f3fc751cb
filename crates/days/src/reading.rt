// Reading one line of a day.
ghost use Rattle.std.specs.Prelude.{◌≡◌};
ghost use Rattle.days.specs.Line.{look_at, keys_at, sent_at, gone_at, number_of, word, behind, quoted, is_blank, all_blank, passed_over, line_of, LineRead};
ghost use Rattle.days.specs.Text.{TextRead};

use crate::fault::Fault;
use crate::line::Line;
use crate::number::read_number;
use crate::parts::cut;
use crate::text::read_text;
use std::alloc::Global;

// The bytes of a text between quotes.
fn read_quoted(heap: Global, text: &[u8]) -> Result<Vec<u8>, Fault>
    ensures { TextRead result (quoted text.now) }
{
    match text {
        [b'"', inner @ .., b'"'] => read_text(heap, inner),
        _ => Err(Fault::BadText),
    }
}

fn read_look(rest: &[u8]) -> Result<Line, Fault>
    ensures { LineRead result (look_at (number_of (word rest.now)) (number_of (behind rest.now))) }
{
    let (columns, rows) = cut(rest, b' ');
    let columns = read_number(columns).ok_or(Fault::BadNumber)?;
    let rows = read_number(rows).ok_or(Fault::BadNumber)?;
    if (1..=200).contains(&columns) && (2..=60).contains(&rows) {
        Ok(Line::Look(columns, rows))
    } else {
        Err(Fault::BadSize)
    }
}

fn read_keys(heap: Global, rest: &[u8]) -> Result<Line, Fault>
    ensures { LineRead result (keys_at (quoted rest.now)) }
{
    Ok(Line::Keys(read_quoted(heap, rest)?))
}

fn read_from(heap: Global, rest: &[u8]) -> Result<Line, Fault>
    ensures { LineRead result (sent_at (number_of (word rest.now)) (quoted (behind rest.now))) }
{
    let (pane, text) = cut(rest, b' ');
    let pane = read_number(pane).ok_or(Fault::BadNumber)?;
    let bytes = read_quoted(heap, text)?;
    if bytes.len() <= 4096 {
        Ok(Line::From(pane, bytes))
    } else {
        Err(Fault::TooLong)
    }
}

fn read_gone(rest: &[u8]) -> Result<Line, Fault>
    ensures { LineRead result (gone_at (number_of rest.now)) }
{
    let pane = read_number(rest).ok_or(Fault::BadNumber)?;
    Ok(Line::Gone(pane))
}

fn is_space(b: u8) -> bool
    ensures { result ≡ is_blank b }
{
    matches!(b, b' ' | b'\t')
}

fn all_spaces(line: &[u8]) -> bool
    ensures { result ≡ all_blank line.now }
{
    line.iter().all(|b| is_space(*b))
}

fn is_passed_over(line: &[u8]) -> bool
    ensures { result ≡ passed_over line.now }
{
    all_spaces(line) || line.starts_with(b"#")
}

// One line of a day, without its end.
#[tactic(auto, unfolding(crate::specs::Line::line_of))]
pub fn read_line(heap: Global, line: &[u8]) -> Result<Line, Fault>
    ensures { LineRead result (line_of line.now) }
{
    if is_passed_over(line) {
        Ok(Line::Nothing)
    } else if line == b"show".as_slice() {
        Ok(Line::Show)
    } else if let Some(rest) = line.strip_prefix(b"look ") {
        read_look(rest)
    } else if let Some(rest) = line.strip_prefix(b"keys ") {
        read_keys(heap, rest)
    } else if let Some(rest) = line.strip_prefix(b"from ") {
        read_from(heap, rest)
    } else if let Some(rest) = line.strip_prefix(b"gone ") {
        read_gone(rest)
    } else {
        Err(Fault::UnknownWord)
    }
}
