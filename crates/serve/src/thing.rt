// Serving one thing, in no more steps than were given.
ghost use Rattle.std.specs.Prelude.{◌≢◌};
ghost use Rattle.engine.specs.Detaching.{detaching_machine};
ghost use Rattle.live.specs.Coming.{event_of, sizes_fit, ToldSays};
ghost use Rattle.serve.specs.Log.{log_of};
ghost use Rattle.serve.specs.Serving.{told_it, Serves};

use crate::acts::Acts;
use crate::ended::{Ended, Fault};
use live::{Coming, go_on, tell};
use meaning::Told;

// How many steps the programs give for one thing, before the machine is taken to be at fault.
pub const BUDGET: usize = 1000000;

// The machine is told what has come, or to go on.
fn one_step(memory: &mut [u64], coming: Option<Coming>, bytes: &[u8], out: &mut [u8]) -> Told
    ensures { ToldSays detaching_machine (told_it coming bytes.now) memory.old out.old (sizes_fit detaching_machine memory.old out.old) result memory.new out.new }
{
    match coming {
        Some(coming) => tell(memory, coming, bytes, out),
        None => go_on(memory, out),
    }
}

// Memory and the row lent for bytes are as `tell` takes them. The acts are put behind those in the log; where no memory is left for that nothing more is
// said of log and machine.
pub fn serve(
    acts: &mut Acts,
    memory: &mut [u64],
    out: &mut [u8],
    budget: usize,
    coming: Coming,
    bytes: &[u8],
) -> Result<Ended, Fault>
    ensures { (result ≢ Err Fault.Memory) →
        Serves detaching_machine budget (event_of coming bytes.now) memory.old out.old (log_of acts.old) result memory.new (log_of acts.new) }
{
    // What the machine is told next; nothing when it is to go on.
    let mut to_tell = Some(coming);
    let mut over = false;
    for _ in 0..budget {
        let told = one_step(memory, to_tell, bytes, out);
        if let Told::No(_) = told {
            return Err(Fault::Refused);
        }
        acts.note(told, out)?;
        match told {
            Told::Wait => return Ok(if over { Ended::Over } else { Ended::Waits }),
            Told::Over => over = true,
            _ => {}
        }
        to_tell = None;
    }
    Err(Fault::Stuck)
}
