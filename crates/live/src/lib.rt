// The machine that runs: one step over lent memory, with no allocation and no input or output of its own. Each turn leaves the memory and tells the act
// that the definition `detaching_machine` has.
#![tactic(auto)]

mod bytes;
mod coming;
mod going;
mod keys;
mod sizes;
mod turn;

ghost use Rattle.meaning.specs.Entry.{StepSays, step_fits};
ghost use Rattle.meaning.specs.Promise.{Whole, comes, next, detaching};
ghost use Rattle.engine.specs.Detaching.{detaching_machine};
ghost use Rattle.live.specs.Coming.{event_of, sizes_fit, ToldSays};

pub use crate::coming::Coming;
use crate::going::resume;
use crate::turn::take;
pub use engine::{MEMORY, OUT};
use meaning::Told;

// One step by what comes. Memory or a row that isn't as large as it has to be is answered by No(0), and nothing changes; what is not proper is answered by
// Wait, and nothing changes. The refusal is told as `step` tells it, not by an option, since the log of acts has it so.
#[tactic(auto, using(engine::proofs::Whole::whole_detaching))]
pub fn tell(memory: &mut [u64], coming: Coming, bytes: &[u8], out: &mut [u8]) -> Told
    ensures says { ToldSays detaching_machine (comes (event_of coming bytes.now)) memory.old out.old (sizes_fit detaching_machine memory.old out.old) result memory.new out.new }
    ensures whole { Whole detaching detaching_machine }
{
    if let Some(memory) = memory.as_mut_array()
        && let Some(out) = out.first_chunk_mut()
    {
        return take(memory, coming, bytes, out);
    }
    Told::No(0)
}

// One step with nothing new, after one that did not wait; refused likewise.
#[tactic(auto, using(engine::proofs::Whole::whole_detaching))]
pub fn go_on(memory: &mut [u64], out: &mut [u8]) -> Told
    ensures says { ToldSays detaching_machine next memory.old out.old (sizes_fit detaching_machine memory.old out.old) result memory.new out.new }
    ensures whole { Whole detaching detaching_machine }
{
    if let Some(memory) = memory.as_mut_array()
        && let Some(out) = out.first_chunk_mut()
    {
        return resume(memory, out);
    }
    Told::No(0)
}

// One step, told in numbers: what comes is a kind (0 a key, 1 bytes from a program, 2 a program's end, 3 a viewer's size, 4 go on), a number or two, and
// bytes. What doesn't fit is answered by No(0) and changes nothing; what is not proper is answered by Wait and changes nothing. It is a kind and numbers, not
// an enum, because C calls it and the formal statement has it so.
#[tactic(auto, using(engine::proofs::Whole::whole_detaching))]
pub fn step(memory: &mut [u64], kind: u64, a: u64, b: u64, bytes: &[u8], out: &mut [u8]) -> Told
    ensures says { StepSays detaching_machine memory.old kind a b bytes.now out.old (step_fits detaching_machine memory.old kind out.old) result memory.new out.new }
    ensures whole { Whole detaching detaching_machine }
{
    let Some(memory) = memory.as_mut_array() else {
        return Told::No(0);
    };
    let Some(out) = out.first_chunk_mut() else {
        return Told::No(0);
    };
    match kind {
        0 => match u8::try_from(a) {
            Ok(c) => take(memory, Coming::Key(c), bytes, out),
            Err(_) => Told::Wait,
        },
        1 => take(memory, Coming::From(a), bytes, out),
        2 => take(memory, Coming::Gone(a), bytes, out),
        3 => take(memory, Coming::Look(a, b), bytes, out),
        4 => resume(memory, out),
        _ => Told::No(0),
    }
}
