// A program's end: its pane goes, and with the last one everything is over.
ghost use Rattle.std.specs.Prelude.{◌≡◌, length};
ghost use Rattle.meaning.specs.Panes.{gone};
ghost use Rattle.turns.specs.Does.{Does, Turns};
ghost use Rattle.turns.specs.Turned.{turned};

use crate::show::advance;
use engine::{MEMORY, OUT};
use machine::state::Machine;
use machine::store;
use meaning::Told;

// The end of a program that has no pane changes nothing.
pub fn take_end(memory: &mut [u64; MEMORY], x: Machine, id: u64, out: &mut [u8; OUT]) -> Told
    ensures does { Does (turned x memory.old (gone id)) memory.old memory.new result out.old out.new }
    ensures row { length out.new ≡ OUT }
{
    match x.pane {
        Some(p) if p.id == id => {
            let mut y = x;
            y.pane = None;
            store(memory, y);
            Told::Over
        }
        _ => advance(memory, x, out),
    }
}

// A pane's program has ended. Memory or a row that isn't as large as it has to be is answered by No(0), and nothing changes.
pub fn end(memory: &mut [u64], x: Machine, id: u64, out: &mut [u8]) -> Told
    ensures { Turns (turned x memory.old (gone id)) memory.old memory.new result out.old out.new }
{
    if let Some(memory) = memory.as_mut_array()
        && let Some(out) = out.first_chunk_mut()
    {
        return take_end(memory, x, id, out);
    }
    Told::No(0)
}
