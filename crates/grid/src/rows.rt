// Edits of whole rows. Rows count from 0, the first is the upper one.
ghost use Rattle.std.specs.Prelude.{◌&&◌, nat_le, nat_lt};
ghost use Rattle.meaning.specs.Screen.{scrolled_up, scrolled_down};
ghost use Rattle.grid.specs.Cells.{rows_of};
ghost use Rattle.grid.specs.Edits.{Edited, on_screen, rows_blanked};

use crate::cell::BLANK;
use crate::shift::{shift_in, shift_out};
use crate::size::Size;

// The rows top to bottom, both included, go up by count, and blank rows come in below.
pub fn scroll_up(cells: &mut [u64], size: Size, top: usize, bottom: usize, count: usize) -> bool
    ensures { Edited size.wide size.high cells.old cells.new
        (on_screen size.wide size.high cells.old && (nat_le top bottom && nat_lt bottom size.high)) result
        (scrolled_up size.wide (rows_of size.wide size.high cells.old) top bottom count) }
{
    if cells.len() != size.cells() || top > bottom || bottom >= size.high {
        return false;
    }
    let wide = size.wide;
    let by = count.min(bottom + 1 - top) * wide;
    shift_out(&mut cells[top * wide..(bottom + 1) * wide], by, BLANK);
    true
}

// They go down by count, and blank rows come in above. Up and down differ in the move itself, so each is a function, as in shift.rt.
pub fn scroll_down(cells: &mut [u64], size: Size, top: usize, bottom: usize, count: usize) -> bool
    ensures { Edited size.wide size.high cells.old cells.new
        (on_screen size.wide size.high cells.old && (nat_le top bottom && nat_lt bottom size.high)) result
        (scrolled_down size.wide (rows_of size.wide size.high cells.old) top bottom count) }
{
    if cells.len() != size.cells() || top > bottom || bottom >= size.high {
        return false;
    }
    let wide = size.wide;
    let by = count.min(bottom + 1 - top) * wide;
    shift_in(&mut cells[top * wide..(bottom + 1) * wide], by, BLANK);
    true
}

// The rows from first up to last, and without last, become blank.
pub fn erase_rows(cells: &mut [u64], size: Size, first: usize, last: usize) -> bool
    ensures { Edited size.wide size.high cells.old cells.new
        (on_screen size.wide size.high cells.old && (nat_le first last && nat_le last size.high)) result
        (rows_blanked size.wide (rows_of size.wide size.high cells.old) first last) }
{
    if cells.len() != size.cells() || first > last || last > size.high {
        return false;
    }
    cells[first * size.wide..last * size.wide].fill(BLANK);
    true
}
