// Edits within one row. Columns count from 0.
ghost use Rattle.std.specs.Prelude.{◌&&◌, nat_lt};
ghost use Rattle.meaning.specs.Words.{put_at};
ghost use Rattle.meaning.specs.Screen.{opened, closed, wiped};
ghost use Rattle.grid.specs.Cells.{rows_of, unpacked};
ghost use Rattle.grid.specs.Edits.{Edited, on_screen, row_changed};

use crate::cell::BLANK;
use crate::shift::{shift_in, shift_out};
use crate::size::{Place, Size};

// One cell is written.
pub fn put(cells: &mut [u64], size: Size, place: Place, cell: u64) -> bool
    ensures { Edited size.wide size.high cells.old cells.new
        (on_screen size.wide size.high cells.old && (nat_lt place.row size.high && nat_lt place.col size.wide)) result
        (row_changed (rows_of size.wide size.high cells.old) place.row (λ x. put_at x place.col (unpacked cell))) }
{
    let Place { row, col } = place;
    if cells.len() != size.cells() || row >= size.high || col >= size.wide {
        return false;
    }
    cells[row * size.wide + col] = cell;
    true
}

// Blanks come in at col; what they push over the row's end is lost.
pub fn insert_blanks(cells: &mut [u64], size: Size, place: Place, count: usize) -> bool
    ensures { Edited size.wide size.high cells.old cells.new
        (on_screen size.wide size.high cells.old && (nat_lt place.row size.high && nat_lt place.col size.wide)) result
        (row_changed (rows_of size.wide size.high cells.old) place.row (opened size.wide place.col count)) }
{
    let Place { row, col } = place;
    if cells.len() != size.cells() || row >= size.high || col >= size.wide {
        return false;
    }
    let start = row * size.wide;
    shift_in(&mut cells[start + col..start + size.wide], count, BLANK);
    true
}

// Cells leave at col; the rest of the row moves up to there, and blanks come in at its end.
pub fn delete_cells(cells: &mut [u64], size: Size, place: Place, count: usize) -> bool
    ensures { Edited size.wide size.high cells.old cells.new
        (on_screen size.wide size.high cells.old && (nat_lt place.row size.high && nat_lt place.col size.wide)) result
        (row_changed (rows_of size.wide size.high cells.old) place.row (closed size.wide place.col count)) }
{
    let Place { row, col } = place;
    if cells.len() != size.cells() || row >= size.high || col >= size.wide {
        return false;
    }
    let start = row * size.wide;
    shift_out(&mut cells[start + col..start + size.wide], count, BLANK);
    true
}

// The cells from first up to last, and without last, become blank. Columns past the row's end are passed over.
pub fn erase(cells: &mut [u64], size: Size, row: usize, first: usize, last: usize) -> bool
    ensures { Edited size.wide size.high cells.old cells.new
        (on_screen size.wide size.high cells.old && nat_lt row size.high) result
        (row_changed (rows_of size.wide size.high cells.old) row (wiped first last)) }
{
    if cells.len() != size.cells() || row >= size.high {
        return false;
    }
    let end = last.min(size.wide);
    if first < end {
        let start = row * size.wide;
        cells[start + first..start + end].fill(BLANK);
    }
    true
}
