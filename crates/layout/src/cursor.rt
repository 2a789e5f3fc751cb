// Where the whole screen's cursor is.
ghost use Rattle.std.specs.Prelude.{◌≡◌, ℕ, Bool, List};
ghost use Rattle.meaning.specs.Screen.{Cell};
ghost use Rattle.meaning.specs.Picture.{spot};
ghost use Rattle.grid.specs.Places.{spot_from};
ghost use Rattle.terminal.specs.Terms.{term_of};
ghost use Rattle.layout.specs.Window.{one_pane};

use grid::size::{Place, Size};
use terminal::state::{Cursor, Terminal};

// The pane's cursor, if that is visible and not cut off or under the status line; else none is shown.
pub fn cursor_of(size: Size, pane: &Terminal) -> Option<Place>
    ensures { (rs : List (List Cell)) (a : List ℕ) (i n : ℕ) (p : Bool) →
        spot_from result ≡ spot (one_pane size.wide size.high i (term_of pane.now rs a) n p) }
{
    let Cursor { row, col, .. } = pane.cursor;
    if pane.modes.visible && row < size.high - 1 && col < size.wide {
        Some(Place { row, col })
    } else {
        None
    }
}
