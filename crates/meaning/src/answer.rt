// What the entries answer. Cases with several values have them in one number, as the comments say: so C is given them, and so the formal statement reads.

// Why a style is not changed.
#[derive(Clone, Copy, PartialEq, Eq)]
pub enum Refusal {
    // The number is no style.
    NoStyle,
    // There are more than 16 numbers.
    TooMany,
}

// What one step of the machine does.
#[derive(Clone, Copy)]
pub enum Told {
    // So many bytes to the viewer's screen.
    Write(u64),
    // Bytes to a pane's program: 65,536 times the pane, and how many.
    Send(u64),
    // A pane's program is to start: 65,536 times the pane, 256 times the columns, and the rows.
    Start(u64),
    // It has another size, in the same form.
    Size(u64),
    // The pane's program is to stop.
    Stop(u64),
    // Nobody looks any more.
    Leave,
    // The last window has gone.
    Over,
    // Nothing to do until something comes.
    Wait,
    // What was asked does not fit: nothing was done. An answer like the others, with its number, since acts are logged and printed.
    No(u64),
}
