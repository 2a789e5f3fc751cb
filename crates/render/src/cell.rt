// The bytes of one cell: an address and a rendition only where they are needed, then the character.
ghost use Rattle.std.specs.Prelude.{◌≡◌, ◌+◌, ◌<◌, ◌≤◌, length};
ghost use Rattle.output.specs.Added.{Adds};
ghost use Rattle.render.specs.Draw.{move_bytes, restyle_bytes, cell_bytes};

use crate::pen::Pen;
use crate::sequence::{address, select};
use grid::cell::Rendition;
use grid::size::Place;
use output::Buffer;

fn move_to(out: &mut Buffer<'_>, pen: Pen, place: Place)
    requires small { (place.row < 60) × (place.col < 200) }
    requires room { out.old.len + 10 ≤ length out.old.bytes.now }
    ensures added { Adds out.old out.new (move_bytes pen place.row place.col) }
    ensures most { out.new.len ≤ out.old.len + 10 }
{
    if !pen.is_at(place) {
        address(out, place);
    }
}

fn restyle(out: &mut Buffer<'_>, was: Rendition, r: Rendition)
    requires { out.old.len + 18 ≤ length out.old.bytes.now }
    ensures added { Adds out.old out.new (restyle_bytes was r) }
    ensures most { out.new.len ≤ out.old.len + 18 }
{
    if was != r {
        select(out, r);
    }
}

pub(crate) fn write_cell(out: &mut Buffer<'_>, pen: Pen, place: Place, p: u64)
    requires small { (place.row < 60) × (place.col < 200) }
    requires room { out.old.len + 32 ≤ length out.old.bytes.now }
    ensures added { Adds out.old out.new (cell_bytes pen place.row place.col p) }
    ensures most { out.new.len ≤ out.old.len + 32 }
{
    move_to(out, pen, place);
    restyle(out, pen.rendition, Rendition::from(p));
    out.push((p % 256) as u8);
}
