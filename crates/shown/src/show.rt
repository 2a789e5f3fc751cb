// Bytes shown as text: a terminal as it comes up is fed with them, and its screen written out.
ghost use Rattle.shown.specs.Told.{Shows};

use crate::feed::feed_all;
use crate::screen::{Unwritten, write_screen};
use grid::size::Size;
use terminal::state::Terminal;

// The lent cells serve as the terminal's; what they hold before doesn't matter.
pub fn show(out: &mut Vec<u8>, size: Size, cells: &mut [u64], bytes: &[u8]) -> Result<(), Unwritten>
    ensures { Shows out.old.items size cells.old bytes.now result out.new.items }
{
    let Some(mut term) = Terminal::start(size, cells) else {
        return Err(Unwritten::WrongCells);
    };
    feed_all(&mut term, cells, bytes);
    write_screen(out, &term, cells)
}
