// One turn by what has come, over memory that holds a machine, or none yet.
ghost use Rattle.std.specs.Prelude.{◌≡◌, ℕ, true, List, length, Some};
ghost use Rattle.meaning.specs.Panes.{attach, at_first};
ghost use Rattle.meaning.specs.Promise.{comes, wait, proper_event};
ghost use Rattle.engine.specs.State.{out as out_of, fresh_view};
ghost use Rattle.machine.specs.States.{Loads};
ghost use Rattle.machine.specs.declared.state.Loaded.TheVariants.{Is};
ghost use Rattle.turns.specs.Does.{Does};
ghost use Rattle.live.specs.Coming.{event_of};
ghost use Rattle.live.specs.Goes.{Goes};
ghost use Rattle.live.specs.Turned.{AtFirst};

use crate::bytes::take_bytes;
use crate::coming::{Coming, is_proper};
use crate::keys::take_key;
use crate::sizes::{attach_first, clear_view, take_size};
use engine::{MEMORY, OUT};
use grid::size::Size;
use machine::state::{Loaded, Machine};
use machine::{load, store};
use meaning::Told;
use render::pen::Pen;
use turns::ends::take_end;

// The machine to which nothing has come yet.
fn untouched() -> Machine
    ensures { AtFirst result }
{
    Machine {
        size: Size { wide: 1, high: 1 },
        attached: false,
        prefix: false,
        next: 1,
        pane: None,
        pen: Pen::fresh(),
    }
}

// Nothing is there yet, and nothing is done; but from now on the memory holds the machine.
pub(crate) fn settle_in(memory: &mut [u64; MEMORY]) -> Told
    ensures { (ys : List ℕ) → Does (out_of at_first (fresh_view 1 1) wait) memory.old memory.new result ys ys }
{
    let x = untouched();
    clear_view(memory, x.size);
    store(memory, x);
    Told::Wait
}

// Columns and rows that are proper are a size.
fn size_of(columns: u64, rows: u64) -> Size
    requires { proper_event (attach columns rows) ≡ true }
    ensures { (result.wide ≡ columns) × (result.high ≡ rows) }
{
    Size::new(columns as usize, rows as usize).unwrap()
}

// What comes to a machine that is there.
fn take_turn(
    memory: &mut [u64; MEMORY],
    x: Machine,
    coming: Coming,
    bytes: &[u8],
    out: &mut [u8; OUT],
) -> Told
    requires holds { Loads memory.old (Some (Is x)) }
    requires proper { proper_event (event_of coming bytes.now) ≡ true }
    ensures { Goes (comes (event_of coming bytes.now)) memory.old memory.new result out.old out.new }
{
    match coming {
        Coming::Key(c) => take_key(memory, x, c, out),
        Coming::From(id) => take_bytes(memory, x, id, bytes, out),
        Coming::Gone(id) => take_end(memory, x, id, out),
        Coming::Look(columns, rows) => take_size(memory, x, size_of(columns, rows), out),
    }
}

// One thing that comes. What is not proper changes nothing, nor does anything where the memory holds no state.
pub(crate) fn take(
    memory: &mut [u64; MEMORY],
    coming: Coming,
    bytes: &[u8],
    out: &mut [u8; OUT],
) -> Told
    ensures does { Goes (comes (event_of coming bytes.now)) memory.old memory.new result out.old out.new }
    ensures row { length out.new ≡ OUT }
{
    if !is_proper(coming, bytes) {
        return Told::Wait;
    }
    match load(memory) {
        Some(Loaded::Is(x)) => take_turn(memory, x, coming, bytes, out),
        Some(Loaded::First) => match coming {
            Coming::Look(columns, rows) => {
                attach_first(memory, untouched(), size_of(columns, rows))
            }
            _ => settle_in(memory),
        },
        None => Told::Wait,
    }
}
