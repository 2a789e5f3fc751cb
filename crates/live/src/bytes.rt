// Bytes from a pane's program: its terminal takes them, and what that answers goes back to the program.
ghost use Rattle.std.specs.Prelude.{◌≡◌, ◌≤◌, length, Some};
ghost use Rattle.meaning.specs.Panes.{from};
ghost use Rattle.live.specs.Answered.{Answered};
ghost use Rattle.turns.specs.Does.{Does};
ghost use Rattle.live.specs.Turned.{turned};

use engine::{CELLS, MEMORY, OUT};
use machine::state::{Held, Machine};
use machine::store;
use meaning::Told;
use terminal::state::Terminal;
use turns::show::advance;

// How many bytes are answered at most.
const MOST_ANSWERED: usize = 40960;

// How long the answer is, at most ten bytes for each byte; the cells and the room lent are always enough.
fn feed_pane(
    memory: &mut [u64; MEMORY],
    terminal: &mut Terminal,
    bytes: &[u8],
    out: &mut [u8; OUT],
) -> usize
    requires { length bytes.now ≤ 4096 }
    ensures done { Answered terminal.old memory.old bytes.now out.old result terminal.new memory.new out.new }
    ensures small { result ≤ 40960 }
{
    let n = terminal.size.cells();
    terminal
        .feed(
            &mut memory[CELLS..CELLS + n],
            bytes,
            &mut out[0..MOST_ANSWERED],
        )
        .unwrap()
}

// The pane's own program has written: an answer is sent, or it goes on.
fn write_pane(
    memory: &mut [u64; MEMORY],
    x: Machine,
    p: Held,
    bytes: &[u8],
    out: &mut [u8; OUT],
) -> Told
    requires few { length bytes.now ≤ 4096 }
    requires pane { x.pane ≡ Some p }
    ensures { Does (turned x memory.old (from p.id bytes.now)) memory.old memory.new result out.old out.new }
{
    let mut terminal = p.terminal;
    let count = feed_pane(memory, &mut terminal, bytes, out);
    let mut y = x;
    y.pane = Some(Held { id: p.id, terminal });
    if count > 0 {
        store(memory, y);
        return Told::Send(65536 * p.id + count as u64);
    }
    advance(memory, y, out)
}

// Bytes from a program that has no pane change nothing.
pub(crate) fn take_bytes(
    memory: &mut [u64; MEMORY],
    x: Machine,
    id: u64,
    bytes: &[u8],
    out: &mut [u8; OUT],
) -> Told
    requires { length bytes.now ≤ 4096 }
    ensures { Does (turned x memory.old (from id bytes.now)) memory.old memory.new result out.old out.new }
{
    match x.pane {
        Some(p) if p.id == id => write_pane(memory, x, p, bytes, out),
        _ => advance(memory, x, out),
    }
}
