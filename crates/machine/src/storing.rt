// A machine's state stored: its head and its pane's header. The cells stay, since they are the state's already.
ghost use Rattle.std.specs.Prelude.{◌≡◌, ℕ, List};
ghost use Rattle.header.specs.Header.{bit};
ghost use Rattle.engine.specs.Memory.{has_pane, pane_number, head_of};
ghost use Rattle.machine.specs.States.{panes_of, glass_of, view_of, with_next, Stored, StoredWithNext};

use crate::state::{Held, Machine};
use engine::{HEADER, MEMORY};

// Whether there is a pane, and its number.
fn pane_numbers(pane: Option<Held>) -> (u64, u64)
    ensures { (m : List ℕ) → (result.0 ≡ bit (has_pane (panes_of pane m))) × (result.1 ≡ pane_number (panes_of pane m)) }
{
    match pane {
        Some(p) => (1, p.id),
        None => (0, 0),
    }
}

// `next` is the number that the next pane gets.
fn head_numbers(x: Machine, next: u64) -> [u64; 16]
    ensures { (m : List ℕ) → result ≡ head_of (with_next (glass_of x m) next) (view_of x m) }
{
    let (has, id) = pane_numbers(x.pane);
    [
        1,
        x.size.wide as u64,
        x.size.high as u64,
        u64::from(x.attached),
        u64::from(x.prefix),
        next,
        has,
        id,
        x.pen.row as u64,
        x.pen.col as u64,
        u64::from(x.pen.pending),
        u64::from(x.pen.rendition),
        u64::from(x.pen.visible),
        0,
        0,
        0,
    ]
}

// Whether the memory has its size; if so it holds the state of `x` but with `next` as the number that the next pane gets, with the cells as they are, and
// else it stays.
pub fn store_with_next(memory: &mut [u64], x: Machine, next: u64) -> bool
    ensures { StoredWithNext x next memory.old result memory.new }
{
    let Some(memory) = memory.as_mut_array::<MEMORY>() else {
        return false;
    };
    if let Some(p) = x.pane {
        header::store(p.terminal, &mut memory[HEADER..HEADER + 64]);
    }
    memory[0..16].copy_from_slice(&head_numbers(x, next));
    true
}

// Whether the memory has its size; if so it holds the state of `x`, with the cells as they are, and else it stays.
pub fn store(memory: &mut [u64], x: Machine) -> bool
    ensures { Stored x memory.old result memory.new }
{
    store_with_next(memory, x, x.next)
}
