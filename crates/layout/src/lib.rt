// The picture of one window with one pane: its cells on the whole screen with the status line in the last row, and where the cursor is.
// The cells are lent memory, a flat slice of numbers, row after row; what does not fit is refused, and nothing is changed then.
#![tactic(auto)]

mod cursor;
mod pane;
mod status;

pub use cursor::cursor_of;
pub use pane::draw_pane;
