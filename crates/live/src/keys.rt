// A key: as crate turns has it where none is known after the prefix, but at d after the prefix nobody looks any more.
ghost use Rattle.std.specs.Prelude.{◌≡◌, ◌&&◌, ◌==◌};
ghost use Rattle.meaning.specs.Panes.{key};
ghost use Rattle.turns.specs.Does.{Does};
ghost use Rattle.live.specs.Turned.{turned};

use engine::{MEMORY, OUT};
use machine::state::Machine;
use machine::store;
use meaning::Told;
use turns::keys;

// Is it d after the prefix, while somebody looks?
fn leaves(x: Machine, c: u8) -> bool
    ensures { result ≡ (x.attached && (x.prefix && (c == 100))) }
{
    x.attached && x.prefix && c == b'd'
}

pub(crate) fn take_key(memory: &mut [u64; MEMORY], x: Machine, c: u8, out: &mut [u8; OUT]) -> Told
    ensures { Does (turned x memory.old (key c)) memory.old memory.new result out.old out.new }
{
    if leaves(x, c) {
        let mut y = x;
        y.attached = false;
        y.prefix = false;
        store(memory, y);
        return Told::Leave;
    }
    keys::take_key(memory, x, c, out)
}
