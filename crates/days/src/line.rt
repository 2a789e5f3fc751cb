// One line of a day.

#[derive(Drop)]
pub enum Line {
    // Somebody looks: columns and rows.
    Look(u64, u64),
    // Each byte is one key.
    Keys(Vec<u8>),
    // Bytes from a pane's program.
    From(u64, Vec<u8>),
    // A pane's program has ended.
    Gone(u64),
    // The screen is to be written out here.
    Show,
    // A comment or a blank line.
    Nothing,
}
