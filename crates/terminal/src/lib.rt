// A terminal: the parser of bytes and every control function, over a state by value and cells in lent memory.
#![tactic(auto)]

mod csi;
mod cursor;
mod edit;
mod escape;
mod feed;
mod modes;
mod parameters;
mod print;
mod report;
pub mod restyle;
mod screen;
mod scroll;
mod sgr;
mod start;
pub mod state;
