// Several acts in order, whose bytes stand one behind the other.
ghost use Rattle.std.specs.Prelude.{◌≡◌, OnOk};
ghost use Rattle.days.specs.Added.{Added};
ghost use Rattle.days.specs.Acts.{written_left, sent_left, print_so, acts_lines};

use crate::acts::print_act;
use crate::parts::rest;
use meaning::Told;
use std::alloc::AllocError;

// What is left of the written and of the sent bytes behind those of an act.
fn left<'a>(act: Told, written: &'a [u8], sent: &'a [u8]) -> (&'a [u8], &'a [u8])
    ensures written { result.0.now ≡ written_left act written.now }
    ensures sent { result.1.now ≡ sent_left act sent.now }
{
    match act {
        Told::Write(n) => (rest(written, n as usize), sent),
        Told::Send(n) => (written, rest(sent, (n % 65536) as usize)),
        _ => (written, sent),
    }
}

// One act, with its bytes first in the one row or the other.
fn print_one(out: &mut Vec<u8>, act: Told, written: &[u8], sent: &[u8]) -> Result<(), AllocError>
    ensures { OnOk result (Added out.old.items out.new.items (print_so act written.now sent.now)) }
{
    if let Told::Send(_) = act {
        return print_act(out, act, sent);
    }
    print_act(out, act, written)
}

// Appends the lines of all acts; `written` and `sent` are the bytes of all writes and of all sends. Where memory fails, `out` may have got a part.
pub fn print_acts(
    out: &mut Vec<u8>,
    acts: &[Told],
    written: &[u8],
    sent: &[u8],
) -> Result<(), AllocError>
    ensures { OnOk result (Added out.old.items out.new.items (acts_lines acts.now written.now sent.now)) }
{
    let (mut to_write, mut to_send) = (written, sent);
    for act in acts {
        print_one(out, *act, to_write, to_send)?;
        (to_write, to_send) = left(*act, to_write, to_send);
    }
    Ok(())
}
