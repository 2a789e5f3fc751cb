// A day followed by a program: the day is read from a file or from standard input, and its lines happen to whatever follows it.
#![tactic(auto)]

mod follows;
mod input;

pub use follows::Follows;
pub use input::read;
