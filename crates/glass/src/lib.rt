// A step over lent memory that only waits, as the definition `own` does. The machine that runs is in crate live, which is to take this place.
#![tactic(auto)]

ghost use Rattle.std.specs.Prelude.{◌≡◌};
ghost use Rattle.meaning.specs.Entry.{StepSays, step_fits};
ghost use Rattle.engine.specs.Own.{own};

pub use engine::{MEMORY, OUT};
use meaning::Told;

fn fits(memory: &[u64], kind: u64, out: &[u8]) -> bool
    ensures { result ≡ step_fits own memory.now kind out.now }
{
    memory.len() == MEMORY && kind <= 4 && out.len() >= OUT
}

// One step: what comes is a kind (0 a key, 1 bytes from a program, 2 a program's end, 3 a viewer's size, 4 go on), a number or two, and bytes. What
// doesn't fit is answered by No(0) and changes nothing. It is a kind and numbers, not an enum, because C calls it and the formal statement has it so.
pub fn step(memory: &mut [u64], kind: u64, a: u64, b: u64, bytes: &[u8], out: &mut [u8]) -> Told
    ensures says { StepSays own memory.old kind a b bytes.now out.old (step_fits own memory.old kind out.old) result memory.new out.new }
{
    if !fits(memory, kind, out) {
        return Told::No(0);
    }
    Told::Wait
}
