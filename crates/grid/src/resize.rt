// Another size: the rows of the old one, cut or filled up with blanks, in cells of their own.
ghost use Rattle.std.specs.Prelude.{◌&&◌};
ghost use Rattle.grid.specs.Cells.{rows_of};
ghost use Rattle.grid.specs.Edits.{Edited, on_screen, rows_fitted};

use crate::cell::BLANK;
use crate::size::Size;

// The first skip rows of the old screen are left out; the others come from the new one's first row on.
pub fn resize(old: &[u64], old_size: Size, new: &mut [u64], new_size: Size, skip: usize) -> bool
    ensures { Edited new_size.wide new_size.high new.old new.new
        (on_screen old_size.wide old_size.high old.now && on_screen new_size.wide new_size.high new.old) result
        (rows_fitted new_size.wide new_size.high skip (rows_of old_size.wide old_size.high old.now)) }
{
    if old.len() != old_size.cells() || new.len() != new_size.cells() {
        return false;
    }
    new.fill(BLANK);
    let wide = old_size.wide.min(new_size.wide);
    let high = old_size.high.saturating_sub(skip).min(new_size.high);
    // By row number: of a slice lent in chunks (chunks_exact_mut) nothing is known once the loop over them has ended.
    for k in 0..high {
        let from = (skip + k) * old_size.wide;
        let to = k * new_size.wide;
        new[to..to + wide].copy_from_slice(&old[from..from + wide]);
    }
    true
}
