// Rows of cells and the cursor's place as text, added to a buffer.
ghost use Rattle.std.specs.Prelude.{◌≡◌, ◌≢◌, ℕ, ◌+◌, ◌*◌, ◌<◌, ◌≤◌, List, map, length, take, slice_index};
ghost use Rattle.grid.specs.Cells.{unpacked, rows_of};
ghost use Rattle.output.specs.Added.{Adds};
ghost use Rattle.terminal.specs.Terms.{term_on};
ghost use Rattle.shown.specs.Text.{shown_sign, row_line, rows_text, cursor_line};

use grid::cell::Glyph;
use grid::size::Size;
use output::Buffer;
use terminal::state::Terminal;

// The byte that stands for a cell.
fn sign_shown(cell: u64) -> u8
    ensures { result ≡ shown_sign (unpacked cell) }
{
    match Glyph::from(cell).sign {
        sign @ 32..=126 => sign as u8,
        _ => b'?',
    }
}

// Where a row ends without the blanks at its end.
fn row_end(row: &[u64]) -> usize
    ensures within { result ≤ length row.now }
    ensures blank { (k : ℕ) → result ≤ k → k < length row.now → (unpacked (slice_index row.now k)).sign ≡ 32 }
    ensures full { (k : ℕ) → k + 1 ≡ result → (unpacked (slice_index row.now k)).sign ≢ 32 }
{
    let last = row.iter().rposition(|cell| Glyph::from(*cell).sign != 32);
    last.map_or(0, |k| k + 1)
}

// Cells as they stand, to the last.
fn write_signs(buffer: &mut Buffer, row: &[u64])
    requires { buffer.old.len + length row.now ≤ length buffer.old.bytes.now }
    ensures { Adds buffer.old buffer.new (map shown_sign (map unpacked row.now)) }
{
    for cell in row {
        buffer.push(sign_shown(*cell));
    }
}

fn write_row(buffer: &mut Buffer, row: &[u64])
    requires { buffer.old.len + length row.now + 1 ≤ length buffer.old.bytes.now }
    ensures added { Adds buffer.old buffer.new (row_line (map unpacked row.now)) }
    ensures most { buffer.new.len ≤ buffer.old.len + length row.now + 1 }
{
    write_signs(buffer, &row[..row_end(row)]);
    buffer.push(b'\n');
}

// All rows of a screen, each on a line.
pub(crate) fn write_rows(buffer: &mut Buffer, size: Size, cells: &[u64])
    requires cells { length cells.now ≡ size.high * size.wide }
    requires room { buffer.old.len + 12060 ≤ length buffer.old.bytes.now }
    ensures added { Adds buffer.old buffer.new (rows_text (rows_of size.wide size.high cells.now)) }
    ensures most { buffer.new.len ≤ buffer.old.len + 12060 }
{
    for row in cells.chunks_exact(size.wide) {
        write_row(buffer, row);
    }
}

// Where the cursor is, row and column from 1.
pub(crate) fn write_cursor(buffer: &mut Buffer, term: &Terminal)
    requires { buffer.old.len + 16 ≤ length buffer.old.bytes.now }
    ensures added { (xs a : List ℕ) → Adds buffer.old buffer.new (cursor_line (term_on term.now xs a)) }
    ensures most { buffer.new.len ≤ buffer.old.len + 16 }
{
    if !term.modes.visible {
        buffer.text(b"cursor hidden\n");
        return;
    }
    buffer.text(b"cursor ");
    buffer.number(term.cursor.row + 1);
    buffer.push(b' ');
    buffer.number(term.cursor.col + 1);
    buffer.push(b'\n');
}
