// Control sequences, added to the bytes that are to be sent.
ghost use Rattle.std.specs.Prelude.{◌≡◌, ◌+◌, ◌/◌, ◌%◌, ◌<◌, ◌≤◌, [], ◌∷◌, length};
ghost use Rattle.output.specs.Added.{Adds};
ghost use Rattle.render.specs.Sequences.{cursor_position, parameter, parameter_if, graphic_rendition, cursor_visible};

use grid::cell::Rendition;
use grid::size::Place;
use output::Buffer;

// The cursor addressed (CUP).
pub(crate) fn address(out: &mut Buffer<'_>, place: Place)
    requires small { (place.row < 60) × (place.col < 200) }
    requires room { out.old.len + 10 ≤ length out.old.bytes.now }
    ensures added { Adds out.old out.new (cursor_position place.row place.col) }
    ensures most { out.new.len ≤ out.old.len + 10 }
{
    out.text(b"\x1b[");
    out.number(place.row + 1);
    out.push(b';');
    out.number(place.col + 1);
    out.push(b'H');
}

// One more parameter, with the semicolon before it.
fn add_parameter(out: &mut Buffer<'_>, k: usize)
    requires small { k < 1000 }
    requires room { out.old.len + 4 ≤ length out.old.bytes.now }
    ensures added { Adds out.old out.new (parameter k) }
    ensures most { out.new.len ≤ out.old.len + 4 }
{
    out.push(b';');
    out.number(k);
}

// A parameter of one digit, if the bit is set.
fn add_if(out: &mut Buffer<'_>, bit: u16, k: u8)
    requires small { k < 10 }
    requires room { out.old.len + 2 ≤ length out.old.bytes.now }
    ensures added { Adds out.old out.new (parameter_if bit k) }
    ensures most { out.new.len ≤ out.old.len + 2 }
{
    if bit != 0 {
        out.push(b';');
        out.push(b'0' + k);
    }
}

// Select graphic rendition (SGR), from none.
pub(crate) fn select(out: &mut Buffer<'_>, r: Rendition)
    requires { out.old.len + 18 ≤ length out.old.bytes.now }
    ensures added { Adds out.old out.new (graphic_rendition r.marks r.fore r.back) }
    ensures most { out.new.len ≤ out.old.len + 18 }
{
    out.text(b"\x1b[0");
    add_if(out, r.marks % 2, 1);
    add_if(out, r.marks / 2 % 2, 4);
    add_if(out, r.marks / 4 % 2, 7);
    add_parameter(out, 30 + r.fore as usize);
    add_parameter(out, 40 + r.back as usize);
    out.push(b'm');
}

// The cursor shown or hidden (DECTCEM).
pub(crate) fn show_cursor(out: &mut Buffer<'_>, visible: bool)
    requires { out.old.len + 6 ≤ length out.old.bytes.now }
    ensures added { Adds out.old out.new (cursor_visible visible) }
    ensures most { out.new.len ≡ out.old.len + 6 }
{
    out.text(if visible { b"\x1b[?25h" } else { b"\x1b[?25l" });
}
