// The status line, in reverse video: a blank, the window's number, and a star at the window that is looked at.
ghost use Rattle.std.specs.Prelude.{◌≡◌, map, length};
ghost use Rattle.meaning.specs.Picture.{turned};
ghost use Rattle.grid.specs.Cells.{unpacked};
ghost use Rattle.layout.specs.Window.{status_row};

use grid::cell::{Glyph, Rendition};

const REVERSE: Rendition = Rendition {
    marks: 4,
    ..Rendition::PLAIN
};

fn reversed(sign: u8) -> u64
    ensures { unpacked result ≡ turned sign }
{
    u64::from(Glyph {
        sign: sign as u32,
        rendition: REVERSE,
    })
}

// The line of the only window, cut to the row.
pub(crate) fn draw_status(row: &mut [u64])
    ensures { map unpacked row.new ≡ status_row (length row.old) }
{
    let signs = [b' ', b'0', b'*'].map(reversed);
    row.fill(signs[0]);
    let count = row.len().min(signs.len());
    row[..count].copy_from_slice(&signs[..count]);
}
