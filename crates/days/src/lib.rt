// Reading days, what comes, and printing acts, what the machine does; the programs over files share it.
#![tactic(auto)]

mod acts;
mod day;
mod fault;
mod line;
mod lines;
mod log;
mod mode;
mod number;
mod parts;
mod reading;
mod says;
mod text;

pub use acts::print_act;
pub use day::read_day;
pub use fault::{BadDay, Fault};
pub use line::Line;
pub use log::print_acts;
pub use reading::read_line;
pub use says::message;
pub use text::{print_text, read_text};
