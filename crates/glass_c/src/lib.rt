// The machine for callers from C: one step, whose answer is given as the number of its case and its value.
#![tactic(auto)]

ghost use Rattle.glass_c.specs.Numbers.{Numbered, Steps};

use live::step;
use meaning::Told;

// The case of an answer, and its value; 0 where it has none.
fn numbers(told: Told) -> (u64, u64)
    ensures { Numbered told result.0 result.1 }
{
    match told {
        Told::No(_) => (0, 0),
        Told::Write(n) => (1, n),
        Told::Send(n) => (2, n),
        Told::Start(n) => (3, n),
        Told::Size(n) => (4, n),
        Told::Stop(n) => (5, n),
        Told::Leave => (6, 0),
        Told::Over => (7, 0),
        Told::Wait => (8, 0),
    }
}

// One step of the machine. The case is answered, and its value put first into `value`; where that has no room, 0 is answered and nothing changes.
#[unsafe(no_mangle)]
pub extern "C" fn glass_step(
    memory: &mut [u64],
    kind: u64,
    a: u64,
    b: u64,
    bytes: &[u8],
    out: &mut [u8],
    value: &mut [u64],
) -> u64
    ensures { Steps memory.old kind a b bytes.now out.old value.old result memory.new out.new value.new }
{
    let Some(first) = value.first_mut() else {
        return 0;
    };
    let (case, n) = numbers(step(memory, kind, a, b, bytes, out));
    *first = n;
    case
}
