// A machine's state loaded from its memory; numbers that no machine stores are refused.
ghost use Rattle.std.specs.Prelude.{◌≡◌, false, MatchOption};
ghost use Rattle.engine.specs.Memory.{pen_from};
ghost use Rattle.machine.specs.States.{used_fits, Holds, Loads};

use crate::state::{Held, Loaded, Machine};
use engine::{HEADER, MEMORY};
use grid::cell::Rendition;
use grid::size::Size;
use render::pen::Pen;

// Panes' numbers stay below 2^47.
const LIMIT: u64 = 0x8000_0000_0000;

fn load_pen(head: &[u64; 16]) -> Pen
    ensures { result ≡ pen_from head.now }
{
    Pen {
        row: head[8] as usize,
        col: head[9] as usize,
        pending: head[10] == 1,
        rendition: Rendition::from(head[11]),
        visible: head[12] == 1,
    }
}

// The state of a machine to which something has come.
fn load_used(memory: &[u64; MEMORY]) -> Option<Machine>
    ensures { MatchOption result (used_fits memory.now ≡ false) (λ x. Holds memory.now x) }
{
    let head = memory.first_chunk::<16>().unwrap();
    let size = Size::new(head[1] as usize, head[2] as usize)?;
    let next = head[5];
    let id = head[7];
    if next >= LIMIT || id >= LIMIT {
        return None;
    }
    let pane = if head[6] == 1 {
        let terminal = header::load(&memory[HEADER..HEADER + 64])?;
        Some(Held { id, terminal })
    } else {
        None
    };
    Some(Machine {
        size,
        attached: head[3] == 1,
        prefix: head[4] == 1,
        next,
        pane,
        pen: load_pen(head),
    })
}

// What the memory holds; nothing where it holds no state.
pub fn load(memory: &[u64]) -> Option<Loaded>
    ensures { Loads memory.now result }
{
    let memory = memory.as_array::<MEMORY>()?;
    match memory[0] {
        0 => Some(Loaded::First),
        1 => Some(Loaded::Is(load_used(memory)?)),
        _ => None,
    }
}
