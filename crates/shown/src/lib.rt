// A terminal fed with bytes of any number, and its screen written out as text.
#![tactic(auto)]

pub mod feed;
mod line;
pub mod screen;
pub mod show;
