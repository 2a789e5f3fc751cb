// Where a program's day comes from.
ghost use Rattle.std.specs.Prelude.{IfOk};
ghost use Rattle.following.specs.Reading.{OfText};

use days::{Line, read_day};
use std::io::Read;
use std::{env, fs};

// The file that the first argument names, or else standard input.
fn input(rt: &HostRuntime) -> anyhow::Result<Vec<u8>> {
    let mut args = env::args(rt)?;
    let _program = args.next();
    if let Some(path) = args.next() {
        return Ok(fs::read(rt, path.as_str())?);
    }
    let mut text = Vec::new(rt.alloc());
    rt.stdin().read_to_end(&mut text)?;
    Ok(text)
}

// The lines of the day that the program is given.
pub fn read(rt: &HostRuntime) -> anyhow::Result<Vec<Line>>
    ensures { IfOk result (λ day. OfText day.items) }
{
    let text = input(rt)?;
    Ok(read_day(rt.alloc(), text.as_slice())?)
}
