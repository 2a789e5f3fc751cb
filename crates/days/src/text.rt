// Bytes as escaped text, read and printed.
ghost use Rattle.std.specs.Prelude.{◌≡◌, ◌<◌, IfSome, IfOk, if◌then◌else◌, Some, None, OnOk};
ghost use Rattle.days.specs.Added.{Added};
ghost use Rattle.std.specs.Option.{option_to_list};
ghost use Rattle.days.specs.declared.mode.Mode.TheVariants.{Plain, Slash, Digit};
ghost use Rattle.days.specs.Text.{is_hex, value_of_hex, digit_of_hex, is_short_escape, escape_value, mode_after, bytes_at, DigitFits, escaped_byte, escaped, unescaped, TextRead, PrintedAgain};

use crate::fault::Fault;
use crate::mode::Mode;
use std::alloc::{AllocError, Global};

// The value of a digit of either case.
fn hex_value(c: u8) -> Option<u8>
    ensures value { result ≡ (if is_hex c then Some (value_of_hex c) else None) }
    ensures some { IfSome result (λ v. v < 16) }
{
    match c {
        b'0'..=b'9' => Some(c - b'0'),
        b'A'..=b'F' => Some(c - b'A' + 10),
        b'a'..=b'f' => Some(c - b'a' + 10),
        _ => None,
    }
}

// The byte that a backslash and `c` stand for, where that is a whole escape.
fn short_escape(c: u8) -> Option<u8>
    ensures { result ≡ (if is_short_escape c then Some (escape_value c) else None) }
{
    match c {
        b'"' | b'\\' => Some(c),
        b'e' => Some(27),
        b'n' => Some(b'\n'),
        b'r' => Some(b'\r'),
        b't' => Some(b'\t'),
        _ => None,
    }
}

fn plain_step(c: u8) -> (Mode, Option<u8>)
    ensures mode { result.0 ≡ mode_after Plain c }
    ensures byte { option_to_list result.1 ≡ bytes_at Plain c }
{
    match c {
        b'\\' => (Mode::Slash, None),
        b'"' => (Mode::Bad, Some(c)),
        b' '..=b'~' => (Mode::Plain, Some(c)),
        _ => (Mode::Bad, Some(c)),
    }
}

fn slash_step(c: u8) -> (Mode, Option<u8>)
    ensures mode { result.0 ≡ mode_after Slash c }
    ensures byte { option_to_list result.1 ≡ bytes_at Slash c }
{
    match short_escape(c) {
        Some(b) => (Mode::Plain, Some(b)),
        None => (if c == b'x' { Mode::Hex } else { Mode::Bad }, None),
    }
}

fn digit_step(v: u8, c: u8) -> (Mode, Option<u8>)
    requires { v < 16 }
    ensures mode { result.0 ≡ mode_after (Digit v) c }
    ensures byte { option_to_list result.1 ≡ bytes_at (Digit v) c }
{
    match hex_value(c) {
        Some(d) => (Mode::Plain, Some(16 * v + d)),
        None => (Mode::Bad, None),
    }
}

// The mode after one more byte, and the byte that is then read.
fn step(mode: Mode, c: u8) -> (Mode, Option<u8>)
    requires { DigitFits mode }
    ensures mode { result.0 ≡ mode_after mode c }
    ensures byte { option_to_list result.1 ≡ bytes_at mode c }
    ensures fits { DigitFits result.0 }
{
    match mode {
        Mode::Plain => plain_step(c),
        Mode::Slash => slash_step(c),
        Mode::Hex => match hex_value(c) {
            Some(d) => (Mode::Digit(d), None),
            None => (Mode::Bad, None),
        },
        Mode::Digit(v) => digit_step(v, c),
        Mode::Bad => (Mode::Bad, None),
    }
}

// The bytes that an escaped text stands for.
pub fn read_text(heap: Global, text: &[u8]) -> Result<Vec<u8>, Fault>
    ensures value { TextRead result (unescaped text.now) }
    ensures again { IfOk result (λ v. PrintedAgain text.now v.items) }
{
    let mut out = Vec::new(heap);
    let mut mode = Mode::Plain;
    for c in text {
        let (next, byte) = step(mode, *c);
        // By `extend` it takes a third more instructions.
        if let Some(b) = byte {
            out.push(b)?;
        }
        mode = next;
    }
    match mode {
        Mode::Plain => Ok(out),
        _ => Err(Fault::BadText),
    }
}

fn hex_digit(d: u8) -> u8
    requires { d < 16 }
    ensures { result ≡ digit_of_hex d }
{
    if d < 10 { b'0' + d } else { b'a' - 10 + d }
}

fn print_byte(out: &mut Vec<u8>, b: u8) -> Result<(), AllocError>
    ensures { OnOk result (Added out.old.items out.new.items (escaped_byte b)) }
{
    match b {
        b'"' | b'\\' => out.extend_from_slice(&[b'\\', b]),
        b' '..=b'~' => out.extend_from_slice(&[b]),
        _ => out.extend_from_slice(&[b'\\', b'x', hex_digit(b / 16), hex_digit(b % 16)]),
    }
}

// Appends the canonical text of the bytes, which is read back as they are. Where memory fails, `out` may have got a part of it.
pub fn print_text(out: &mut Vec<u8>, bytes: &[u8]) -> Result<(), AllocError>
    ensures printed { OnOk result (Added out.old.items out.new.items (escaped bytes.now)) }
    ensures back { unescaped (escaped bytes.now) ≡ Some bytes.now }
{
    for b in bytes {
        print_byte(out, *b)?;
    }
    Ok(())
}
