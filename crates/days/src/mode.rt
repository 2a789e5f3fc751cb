// How far the reader of an escaped text has come within an escape.

#[derive(Clone, Copy)]
pub(crate) enum Mode {
    Plain,
    // After a backslash.
    Slash,
    // After a backslash and an x.
    Hex,
    // After the first of two digits, with its value.
    Digit(u8),
    // What was read is no text, whatever follows; a state, as the definition goes on through all bytes.
    Bad,
}
