// The machine's state as a struct, loaded from its memory and stored there; screens' cells stay in the memory.
#![tactic(auto)]

mod loading;
pub mod state;
mod storing;

pub use loading::load;
pub use storing::{store, store_with_next};
