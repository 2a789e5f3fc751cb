// The cells of a window with one pane.
ghost use Rattle.std.specs.Prelude.{◌≡◌, ◌*◌, ◌<◌, ◌≤◌, length};
ghost use Rattle.grid.specs.Cells.{rows_of};
ghost use Rattle.grid.specs.Edits.{rows_fitted};
ghost use Rattle.layout.specs.Window.{Pictured};

use crate::status::draw_status;
use grid::resize::resize;
use grid::size::Size;

// The whole screen: as much of the pane as there is room for above the status line, and that line.
pub fn draw_pane(picture: &mut [u64], size: Size, cells: &[u64], pane: Size) -> bool
    ensures { Pictured size.wide size.high picture.old picture.new pane.wide pane.high cells.now result }
{
    if picture.len() != size.cells() || cells.len() != pane.cells() {
        return false;
    }
    let high = size.high - 1;
    let (rows, status) = picture.split_at_mut(high * size.wide);
    // On a screen of one row there is no room for a pane.
    if let Some(room) = Size::new(size.wide, high) {
        resize(cells, pane, rows, room, 0);
    }
    draw_status(status);
    true
}
