// Somebody attaches, or has another size: the viewer's screen is fresh, and the pane is as large as its place.
ghost use Rattle.std.specs.Prelude.{◌≡◌, ℕ, ◌+◌, ◌-◌, ◌*◌, ◌^◌, ◌<◌, false, List, Some, None, ◌==◌};
ghost use Rattle.meaning.specs.Words.{so_many};
ghost use Rattle.meaning.specs.Panes.{attach, rect, pane_wide, pane_high, as_large};
ghost use Rattle.grid.specs.Cells.{blank_number};
ghost use Rattle.engine.specs.Areas.{over};
ghost use Rattle.machine.specs.States.{terminal_in};
ghost use Rattle.turns.specs.Does.{Does};
ghost use Rattle.live.specs.Turned.{turned, Looked};
ghost use Rattle.live.specs.Fits.{Fitted};

use engine::{CELLS, MEMORY, MOST_CELLS, OUT, SCREEN};
use grid::cell::BLANK;
use grid::size::Size;
use machine::state::{Held, Machine};
use machine::{store, store_with_next};
use meaning::Told;
use render::pen::Pen;
use terminal::state::Terminal;
use turns::show::advance;

// A pane that is alone has all rows but the last.
fn place_of(size: Size) -> Size
    ensures wide { result.wide ≡ pane_wide (rect 0 0 size.wide (size.high - 1)) }
    ensures high { result.high ≡ pane_high (rect 0 0 size.wide (size.high - 1)) }
{
    Size {
        wide: size.wide,
        high: (size.high - 1).max(1),
    }
}

// The viewer's screen is taken to be blank.
pub(crate) fn clear_view(memory: &mut [u64; MEMORY], size: Size)
    ensures { memory.new ≡ over memory.old 2304 (so_many (size.high * size.wide) blank_number) }
{
    let n = size.cells();
    memory[SCREEN..SCREEN + n].fill(BLANK);
}

// The terminal's cells go through a row of their own, since the new ones begin where the old ones do.
fn fit(memory: &mut [u64; MEMORY], terminal: &mut Terminal, size: Size)
    ensures { Fitted terminal.old memory.old size.wide size.high terminal.new memory.new }
{
    let mut row = [0u64; MOST_CELLS];
    let k = terminal.size.cells();
    let n = size.cells();
    row[0..k].copy_from_slice(&memory[CELLS..CELLS + k]);
    terminal.resize(&row[0..k], size, &mut memory[CELLS..CELLS + n]);
}

// The machine of whoever has just attached.
fn looked_at(size: Size, next: u64, pane: Held) -> Machine
    requires { next < 2 ^ 47 }
    ensures { Looked size next pane result }
{
    Machine {
        size,
        attached: true,
        prefix: false,
        next,
        pane: Some(pane),
        pen: Pen::fresh(),
    }
}

// A pane and its size in one number.
fn pane_and_size(id: u64, size: Size) -> u64
    requires { id < 2 ^ 47 }
    ensures { result ≡ 65536 * id + 256 * size.wide + size.high }
{
    65536 * id + 256 * size.wide as u64 + size.high as u64
}

// The first who attaches gets a pane, whose program is started.
pub(crate) fn attach_first(memory: &mut [u64; MEMORY], x: Machine, size: Size) -> Told
    requires { x.pane ≡ None }
    ensures { (ys : List ℕ) → Does (turned x memory.old (attach size.wide size.high)) memory.old memory.new result ys ys }
{
    let id = x.next;
    let place = place_of(size);
    let n = place.cells();
    let terminal = Terminal::start(place, &mut memory[CELLS..CELLS + n]).unwrap();
    clear_view(memory, size);
    let y = looked_at(size, id, Held { id, terminal });
    store_with_next(memory, y, id + 1);
    Told::Start(pane_and_size(id, place))
}

// The pane gets another size, which is told.
fn resize_pane(memory: &mut [u64; MEMORY], x: Machine, p: Held, size: Size) -> Told
    requires pane { x.pane ≡ Some p }
    requires other { as_large (rect 0 0 size.wide (size.high - 1)) (terminal_in p.terminal memory.old) ≡ false }
    ensures { (ys : List ℕ) → Does (turned x memory.old (attach size.wide size.high)) memory.old memory.new result ys ys }
{
    let place = place_of(size);
    let mut terminal = p.terminal;
    fit(memory, &mut terminal, place);
    clear_view(memory, size);
    store(memory, looked_at(size, x.next, Held { id: p.id, terminal }));
    Told::Size(pane_and_size(p.id, place))
}

// A pane that is as large as its place stays as it is.
fn attach_again(
    memory: &mut [u64; MEMORY],
    x: Machine,
    p: Held,
    size: Size,
    out: &mut [u8; OUT],
) -> Told
    requires { x.pane ≡ Some p }
    ensures { Does (turned x memory.old (attach size.wide size.high)) memory.old memory.new result out.old out.new }
{
    if p.terminal.size == place_of(size) {
        clear_view(memory, size);
        return advance(memory, looked_at(size, x.next, p), out);
    }
    resize_pane(memory, x, p, size)
}

// Somebody attaches, or has another size.
pub(crate) fn take_size(
    memory: &mut [u64; MEMORY],
    x: Machine,
    size: Size,
    out: &mut [u8; OUT],
) -> Told
    ensures { Does (turned x memory.old (attach size.wide size.high)) memory.old memory.new result out.old out.new }
{
    match x.pane {
        Some(p) => attach_again(memory, x, p, size, out),
        None => attach_first(memory, x, size),
    }
}
