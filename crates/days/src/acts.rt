// What the machine does, printed one act a line.
ghost use Rattle.std.specs.Prelude.{OnOk};
ghost use Rattle.days.specs.Added.{Added};
ghost use Rattle.days.specs.Acts.{number_behind, text_behind, sized_line, numbered_line, send_line, write_line, act_line};

use crate::parts::first;
use crate::text::print_text;
use itoa::Buffer;
use meaning::Told;
use std::alloc::AllocError;

fn then_number(out: &mut Vec<u8>, n: u64) -> Result<(), AllocError>
    ensures { OnOk result (Added out.old.items out.new.items (number_behind n)) }
{
    out.extend_from_slice(b" ")?;
    out.extend_from_slice(Buffer::new().format(n).as_bytes())
}

fn then_text(out: &mut Vec<u8>, bytes: &[u8]) -> Result<(), AllocError>
    ensures { OnOk result (Added out.old.items out.new.items (text_behind bytes.now)) }
{
    out.extend_from_slice(b" \"")?;
    print_text(out, bytes)?;
    out.extend_from_slice(b"\"\n")
}

fn print_sized(out: &mut Vec<u8>, word: &[u8], n: u64) -> Result<(), AllocError>
    ensures { OnOk result (Added out.old.items out.new.items (sized_line word.now n)) }
{
    out.extend_from_slice(word)?;
    then_number(out, n / 65536)?;
    then_number(out, n / 256 % 256)?;
    then_number(out, n % 256)?;
    out.extend_from_slice(b"\n")
}

fn print_numbered(out: &mut Vec<u8>, word: &[u8], n: u64) -> Result<(), AllocError>
    ensures { OnOk result (Added out.old.items out.new.items (numbered_line word.now n)) }
{
    out.extend_from_slice(word)?;
    then_number(out, n)?;
    out.extend_from_slice(b"\n")
}

fn print_send(out: &mut Vec<u8>, n: u64, bytes: &[u8]) -> Result<(), AllocError>
    ensures { OnOk result (Added out.old.items out.new.items (send_line n bytes.now)) }
{
    out.extend_from_slice(b"send")?;
    then_number(out, n / 65536)?;
    then_text(out, first(bytes, (n % 65536) as usize))
}

fn print_write(out: &mut Vec<u8>, n: u64, bytes: &[u8]) -> Result<(), AllocError>
    ensures { OnOk result (Added out.old.items out.new.items (write_line n bytes.now)) }
{
    out.extend_from_slice(b"write")?;
    then_text(out, first(bytes, n as usize))
}

// Appends the line of an act. Where memory fails, `out` may have got a part of it.
pub fn print_act(out: &mut Vec<u8>, act: Told, bytes: &[u8]) -> Result<(), AllocError>
    ensures { OnOk result (Added out.old.items out.new.items (act_line act bytes.now)) }
{
    match act {
        Told::Write(n) => print_write(out, n, bytes),
        Told::Send(n) => print_send(out, n, bytes),
        Told::Start(n) => print_sized(out, b"start", n),
        Told::Size(n) => print_sized(out, b"size", n),
        Told::Stop(n) => print_numbered(out, b"stop", n),
        Told::Leave => out.extend_from_slice(b"leave\n"),
        Told::Over => out.extend_from_slice(b"over\n"),
        Told::Wait => out.extend_from_slice(b"wait\n"),
        Told::No(n) => print_numbered(out, b"no", n),
    }
}
