// The machine's state but for cells, which stay in its memory. This file cites no definition of specs/.
ghost use Rattle.std.specs.Prelude.{◌^◌, ◌<◌};

use grid::size::Size;
use render::pen::Pen;
use terminal::state::Terminal;

// A pane: its number and its terminal.
#[derive(Clone, Copy)]
pub struct Held {
    pub id: u64,
    pub terminal: Terminal,
    ghost id_ok: { id < 2 ^ 47 },
}

// `prefix` says whether the prefix key has come, `next` is the number that the next pane gets; `pen` is the viewer's.
#[derive(Clone, Copy)]
pub struct Machine {
    pub size: Size,
    pub attached: bool,
    pub prefix: bool,
    pub next: u64,
    pub pane: Option<Held>,
    pub pen: Pen,
    ghost next_ok: { next < 2 ^ 47 },
}

// The state that a memory holds: that of a machine to which nothing has come yet, or another.
#[derive(Clone, Copy)]
pub enum Loaded {
    First,
    Is(Machine),
}
