// The screen: bytes from standard input on a terminal of COLUMNS by ROWS, which is written out at the end.
#![tactic(auto)]

use anyhow::{Context, bail};
use grid::size::Size;
use shown::show::show;
use std::env;
use std::io::{Read, Write};

const USAGE: &str = "two arguments: COLUMNS, 1 to 200, and ROWS, 1 to 60";

fn size_of(columns: &str, rows: &str) -> Option<Size> {
    let wide = columns.parse::<usize>().ok()?;
    let high = rows.parse::<usize>().ok()?;
    Size::new(wide, high)
}

fn size(rt: &HostRuntime) -> anyhow::Result<Size> {
    let mut args = env::args(rt)?;
    let _program = args.next();
    let (Some(columns), Some(rows), None) = (args.next(), args.next(), args.next()) else {
        bail!(USAGE);
    };
    size_of(columns.as_str(), rows.as_str()).context(USAGE)
}

fn run(rt: &HostRuntime) -> anyhow::Result<()> {
    let heap = rt.alloc();
    let size = size(rt)?;
    let mut bytes = Vec::new(heap);
    rt.stdin().read_to_end(&mut bytes)?;
    let mut cells = vec![in heap; 0u64; size.cells()]?;
    let mut text = Vec::new(heap);
    show(&mut text, size, cells.as_mut_slice(), bytes.as_slice())?;
    rt.stdout().write_all(text.as_slice())?;
    Ok(())
}

fn main(rt: HostRuntime) -> anyhow::Result<()> {
    run(&rt)
}
