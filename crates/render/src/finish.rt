// The closing go: where the cursor is, and whether it is visible.
ghost use Rattle.std.specs.Prelude.{◌≡◌, ◌+◌, ◌<◌, ◌≤◌, true, length};
ghost use Rattle.grid.specs.Places.{spot_from};
ghost use Rattle.output.specs.Added.{Adds};
ghost use Rattle.render.specs.Finish.{can_be_at, finish_bytes, finish_pen, finished, Finished};

use crate::pen::Pen;
use crate::sequence::{address, show_cursor};
use grid::size::{Place, Size};
use output::Buffer;

// Can the cursor be put there? Hidden, it may be anywhere.
fn allowed(size: Size, cursor: Option<Place>) -> bool
    ensures { let s = spot_from cursor in result ≡ can_be_at size.wide size.high s.row s.col s.shown }
{
    cursor.is_none_or(|place| place.row < size.high && place.col < size.wide)
}

// The cursor put where it is to be, and shown or hidden.
fn close(out: &mut Buffer<'_>, pen: &mut Pen, cursor: Option<Place>)
    requires small { let s = spot_from cursor in s.shown ≡ true → (s.row < 60) × (s.col < 200) }
    requires room { out.old.len + 16 ≤ length out.old.bytes.now }
    ensures added { let s = spot_from cursor in Adds out.old out.new (finish_bytes pen.old s.row s.col s.shown) }
    ensures most { out.new.len ≤ out.old.len + 16 }
    ensures set_to { let s = spot_from cursor in pen.new ≡ finish_pen pen.old s.row s.col s.shown }
{
    if let Some(place) = cursor
        && !pen.stands_at(place)
    {
        address(out, place);
        pen.row = place.row;
        pen.col = place.col;
        pen.pending = false;
    }
    let visible = cursor.is_some();
    if pen.visible != visible {
        show_cursor(out, visible);
        pen.visible = visible;
    }
}

// For when nothing differs any more. A hidden cursor has no place.
// Refuses with 0 where the cursor is to be seen outside the screen, or without room for 16 bytes.
pub fn finish(pen: &mut Pen, size: Size, cursor: Option<Place>, out: &mut [u8]) -> usize
    ensures { let s = spot_from cursor in
        Finished (finished size.wide size.high s.row s.col s.shown (length out.old) pen.old)
        pen.new result out.old out.new }
{
    if out.len() < 16 || !allowed(size, cursor) {
        return 0;
    }
    let mut sent = Buffer { bytes: out, len: 0 };
    close(&mut sent, pen, cursor);
    sent.len
}
