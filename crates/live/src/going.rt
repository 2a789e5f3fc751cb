// Going on with what has begun.
ghost use Rattle.std.specs.Prelude.{◌≡◌, length};
ghost use Rattle.meaning.specs.Promise.{next};
ghost use Rattle.live.specs.Goes.{Goes};

use crate::turn::settle_in;
use engine::{MEMORY, OUT};
use machine::load;
use machine::state::Loaded;
use meaning::Told;
use turns::show::advance;

// Nothing has come. Where the memory holds no state nothing changes.
pub(crate) fn resume(memory: &mut [u64; MEMORY], out: &mut [u8; OUT]) -> Told
    ensures does { Goes next memory.old memory.new result out.old out.new }
    ensures row { length out.new ≡ OUT }
{
    match load(memory) {
        Some(Loaded::Is(x)) => advance(memory, x, out),
        Some(Loaded::First) => settle_in(memory),
        None => Told::Wait,
    }
}
