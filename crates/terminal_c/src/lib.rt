// The terminal for callers from C: bytes written on a screen whose cells the caller lends.
#![tactic(auto)]

ghost use Rattle.terminal_c.specs.Wrote.{Wrote};

use grid::size::Size;
use shown::feed::feed_all;
use terminal::state::Terminal;

// A terminal as it comes up, and then these bytes; only the cells are left. Nothing is done, and false answered, for what is no size of a screen, and for
// cells of another number.
#[unsafe(no_mangle)]
pub extern "C" fn terminal_write(wide: usize, high: usize, cells: &mut [u64], bytes: &[u8]) -> bool
    ensures { Wrote wide high cells.old bytes.now result cells.new }
{
    let Some(size) = Size::new(wide, high) else {
        return false;
    };
    let Some(mut term) = Terminal::start(size, cells) else {
        return false;
    };
    feed_all(&mut term, cells, bytes)
}
