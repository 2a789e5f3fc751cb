// Bytes of any number, fed in parts. What the terminal answers is thrown away.
ghost use Rattle.std.specs.Prelude.{◌≡◌, ◌*◌, length};
ghost use Rattle.shown.specs.Driven.{Driven, FedAll};

use terminal::state::Terminal;

// Few, since a row for the answers is cleared for each part, and what is fed is often short.
const MOST: usize = 64;

fn feed_parts(term: &mut Terminal, cells: &mut [u64], bytes: &[u8])
    requires { length cells.old ≡ term.old.size.high * term.old.size.wide }
    ensures { FedAll term.old cells.old bytes.now term.new cells.new }
{
    for part in bytes.chunks(MOST) {
        let mut answer = [0; 10 * MOST];
        term.feed(cells, part, &mut answer);
    }
}

// Whether the cells are the screen's: if not, nothing is fed. A bool, since C is answered one (terminal_c).
pub fn feed_all(term: &mut Terminal, cells: &mut [u64], bytes: &[u8]) -> bool
    ensures { Driven term.old cells.old bytes.now result term.new cells.new }
{
    if cells.len() != term.size.cells() {
        return false;
    }
    feed_parts(term, cells, bytes);
    true
}
