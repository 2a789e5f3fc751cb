// A key: it goes to the pane with the focus, unless it is the prefix or comes after it.
ghost use Rattle.std.specs.Prelude.{◌≡◌, ◌^◌, ◌<◌, true, [], ◌∷◌, length};
ghost use Rattle.meaning.specs.Panes.{send, key, window_at, current};
ghost use Rattle.meaning.specs.Promise.{says};
ghost use Rattle.meaning.specs.Entry.{SaysTold};
ghost use Rattle.engine.specs.State.{out as out_of};
ghost use Rattle.machine.specs.States.{glass_of, view_of, windows_of};
ghost use Rattle.turns.specs.Does.{Does, Turns};
ghost use Rattle.turns.specs.Turned.{turned};

use crate::show::advance;
use engine::{MEMORY, OUT};
use machine::state::{Held, Machine};
use machine::store;
use meaning::Told;

// The number of the pane with the focus, 0 where there is none.
#[tactic(auto, unfolding(meaning::specs::Panes::window_at))]
fn focus(pane: Option<Held>) -> u64
    ensures is { result ≡ (window_at (windows_of pane) 0).focus }
    ensures small { result < 2 ^ 47 }
{
    pane.map_or(0, |p| p.id)
}

fn send_key(out: &mut [u8; OUT], id: u64, c: u8) -> Told
    requires { id < 2 ^ 47 }
    ensures { SaysTold (send id (c ∷ [])) result out.old out.new }
{
    out[0] = c;
    Told::Send(65536 * id + 1)
}

// The key is said to the pane with the focus.
fn say_key(memory: &mut [u64; MEMORY], x: Machine, c: u8, out: &mut [u8; OUT]) -> Told
    ensures { Does (out_of (glass_of x memory.old) (view_of x memory.old) (says (send (current (glass_of x memory.old)).focus (c ∷ []))))
        memory.old memory.new result out.old out.new }
{
    store(memory, x);
    send_key(out, focus(x.pane), c)
}

fn after_prefix(memory: &mut [u64; MEMORY], x: Machine, c: u8, out: &mut [u8; OUT]) -> Told
    requires looked { x.attached ≡ true }
    requires prefix { x.prefix ≡ true }
    ensures { Does (turned x memory.old (key c)) memory.old memory.new result out.old out.new }
{
    let mut y = x;
    y.prefix = false;
    if c == 1 {
        return say_key(memory, y, c, out);
    }
    advance(memory, y, out)
}

// Byte 1 is the prefix. While nobody looks a key does nothing.
pub fn take_key(memory: &mut [u64; MEMORY], x: Machine, c: u8, out: &mut [u8; OUT]) -> Told
    ensures does { Does (turned x memory.old (key c)) memory.old memory.new result out.old out.new }
    ensures row { length out.new ≡ OUT }
{
    if !x.attached {
        return advance(memory, x, out);
    }
    if x.prefix {
        return after_prefix(memory, x, c, out);
    }
    if c == 1 {
        let mut y = x;
        y.prefix = true;
        return advance(memory, y, out);
    }
    say_key(memory, x, c, out)
}

// A key has come. Memory or a row that isn't as large as it has to be is answered by No(0), and nothing changes.
pub fn press(memory: &mut [u64], x: Machine, c: u8, out: &mut [u8]) -> Told
    ensures { Turns (turned x memory.old (key c)) memory.old memory.new result out.old out.new }
{
    if let Some(memory) = memory.as_mut_array()
        && let Some(out) = out.first_chunk_mut()
    {
        return take_key(memory, x, c, out);
    }
    Told::No(0)
}
