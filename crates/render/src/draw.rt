// The difference between what a screen shows and a picture.
ghost use Rattle.std.specs.Prelude.{length};
ghost use Rattle.render.specs.Draw.{drawn, Drew};

use crate::cell::write_cell;
use crate::pen::Pen;
use grid::size::{Place, Size};
use output::Buffer;

// One go: as many of the differing cells as the row has room for, 32 bytes kept for each. The answer is the number of bytes to send; where sizes
// don't fit there are none, as its definition has it.
pub fn draw(screen: &mut [u64], picture: &[u64], size: Size, pen: &mut Pen, out: &mut [u8]) -> usize
    ensures { Drew (drawn size.wide size.high picture.now (length out.old) screen.old pen.old)
        screen.new pen.new result out.old out.new }
{
    if screen.len() != size.cells() || picture.len() != size.cells() {
        return 0;
    }
    let mut sent = Buffer { bytes: out, len: 0 };
    // Of the two slices only the one that is read gives an iterator: a loop over both zipped, one of them written, is not covered by the check.
    for (i, &p) in picture.iter().enumerate() {
        if screen[i] != p && sent.len + 32 <= sent.bytes.len() {
            let place = Place {
                row: i / size.wide,
                col: i % size.wide,
            };
            write_cell(&mut sent, *pen, place, p);
            *pen = pen.after(size.wide, place, p);
            screen[i] = p;
        }
    }
    sent.len
}
