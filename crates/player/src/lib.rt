// A day played: what the machine writes goes to a screen of our own, and is held to the bytes that the promise grants.
#![tactic(auto)]

mod count;
mod fault;
mod play;
mod screen;
mod tally;

pub use count::{attached_after, differing, granted};
pub use fault::{Fault, says};
pub use play::Player;
pub use screen::Screen;
pub use tally::Tally;
