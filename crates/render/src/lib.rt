// From what a viewer's screen shows to what it is to show, in few bytes.
// The screen is modelled by its cells, flat and row after row, and by a pen; each go tells some of the difference and keeps both up to date.
#![tactic(auto)]

mod cell;
pub mod draw;
pub mod finish;
pub mod pen;
mod sequence;
