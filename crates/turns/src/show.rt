// Going on: cells that differ are sent to the viewer's screen, then the cursor is put right.
ghost use Rattle.std.specs.Prelude.{◌≡◌, ℕ, ◌*◌, Bool, true, List, length, take, Some};
ghost use Rattle.meaning.specs.Picture.{picture, spot};
ghost use Rattle.grid.specs.Cells.{cells_of};
ghost use Rattle.layout.specs.Window.{one_pane};
ghost use Rattle.machine.specs.States.{glass_of, terminal_in, view_of};
ghost use Rattle.turns.specs.Does.{Does, Turns, closing_out};
ghost use Rattle.render.specs.Draw.{drawn};
ghost use Rattle.engine.specs.Areas.{part};
ghost use Rattle.engine.specs.State.{going};
ghost use Rattle.meaning.specs.Screen.{Cell};
ghost use Rattle.terminal.specs.Terms.{term_of};
ghost use Rattle.turns.specs.Sent.{Closed, Sent, closing_at};

use engine::{CELLS, MEMORY, MOST_CELLS, OUT, SCREEN};
use grid::size::Size;
use layout::{cursor_of, draw_pane};
use machine::state::{Held, Machine};
use machine::store;
use meaning::Told;
use render::draw::draw;
use render::finish::finish;
use render::pen::Pen;
use terminal::state::Terminal;

// How many bytes there is room for in one go.
const ROOM: usize = 4096;

// The picture of one pane, at the beginning of a row that is as long as the largest.
fn draw_picture(memory: &[u64; MEMORY], size: Size, pane: &Terminal, row: &mut [u64; MOST_CELLS])
    ensures { (i n : ℕ) (p : Bool) → take (size.high * size.wide) row.new ≡ cells_of (picture (one_pane size.wide size.high i (terminal_in pane.now memory.now) n p)) }
{
    let n = size.cells();
    let k = pane.size.cells();
    draw_pane(&mut row[0..n], size, &memory[CELLS..CELLS + k], pane.size);
}

// One go of drawing.
fn send_cells(
    memory: &mut [u64; MEMORY],
    row: &[u64; MOST_CELLS],
    size: Size,
    pen: &mut Pen,
    out: &mut [u8; OUT],
) -> usize
    ensures { Sent (drawn size.wide size.high (take (size.high * size.wide) row.now) 4096 (part memory.old 2304 (size.high * size.wide)) pen.old)
        memory.old memory.new pen.new result out.old out.new }
{
    let n = size.cells();
    draw(
        &mut memory[SCREEN..SCREEN + n],
        &row[0..n],
        size,
        pen,
        &mut out[0..ROOM],
    )
}

// The closing go.
fn send_cursor(size: Size, pane: &Terminal, pen: &mut Pen, out: &mut [u8; OUT]) -> usize
    ensures { (rs : List (List Cell)) (a : List ℕ) (i n : ℕ) (p : Bool) →
        Closed (closing_at size.wide size.high (spot (one_pane size.wide size.high i (term_of pane.now rs a) n p)) pen.old)
        pen.new result out.old out.new }
{
    finish(pen, size, cursor_of(size, pane), &mut out[0..ROOM])
}

// No cell differs: the cursor is put right, or there is nothing to do.
fn close(memory: &mut [u64; MEMORY], x: Machine, p: Held, out: &mut [u8; OUT]) -> Told
    requires pane { x.pane ≡ Some p }
    requires looked { x.attached ≡ true }
    ensures { Does (closing_out (glass_of x memory.old) (view_of x memory.old)) memory.old memory.new result out.old out.new }
{
    let mut y = x;
    let k = send_cursor(x.size, &p.terminal, &mut y.pen, out);
    if k > 0 {
        store(memory, y);
        return Told::Write(k as u64);
    }
    store(memory, x);
    Told::Wait
}

// Somebody looks at the pane: one go of drawing if cells differ, else the closing go.
fn show(memory: &mut [u64; MEMORY], x: Machine, p: Held, out: &mut [u8; OUT]) -> Told
    requires pane { x.pane ≡ Some p }
    requires looked { x.attached ≡ true }
    ensures { Does (going (glass_of x memory.old) (view_of x memory.old)) memory.old memory.new result out.old out.new }
{
    let mut row = [0u64; MOST_CELLS];
    draw_picture(memory, x.size, &p.terminal, &mut row);
    let mut y = x;
    let n = send_cells(memory, &row, x.size, &mut y.pen, out);
    if n > 0 {
        store(memory, y);
        return Told::Write(n as u64);
    }
    close(memory, x, p, out)
}

// Nothing is done where nobody looks or there is no pane. The row's length is a clause of its own, since a caller doesn't get it from the type where the
// array was borrowed out of a slice.
pub fn advance(memory: &mut [u64; MEMORY], x: Machine, out: &mut [u8; OUT]) -> Told
    ensures does { Does (going (glass_of x memory.old) (view_of x memory.old)) memory.old memory.new result out.old out.new }
    ensures row { length out.new ≡ OUT }
{
    match x.pane {
        Some(p) if x.attached => show(memory, x, p, out),
        _ => {
            store(memory, x);
            Told::Wait
        }
    }
}

// Told to go on. Memory or a row that isn't as large as it has to be is answered by No(0), and nothing changes.
pub fn go_on(memory: &mut [u64], x: Machine, out: &mut [u8]) -> Told
    ensures { Turns (going (glass_of x memory.old) (view_of x memory.old)) memory.old memory.new result out.old out.new }
{
    if let Some(memory) = memory.as_mut_array()
        && let Some(out) = out.first_chunk_mut()
    {
        return advance(memory, x, out);
    }
    Told::No(0)
}
