// One thing that comes, served: the machine is told it, and then to go on, until it waits; what it does on the way is kept in a log.
#![tactic(auto)]

mod acts;
mod ended;
mod thing;

ghost use Rattle.serve.specs.Promised.{AsPromised};

pub use acts::Acts;
pub use ended::{Ended, Fault};
pub use live::Coming;
pub use thing::{BUDGET, serve};

// Where a run of the promise comes to wait, serving does, with its memory and its bytes.
pub fn as_promised_stands() -> u8
    ensures { AsPromised }
{
    0
}
