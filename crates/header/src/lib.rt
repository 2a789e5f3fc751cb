// A terminal's state in lent memory: a header of 64 numbers, beside which its cells stand.
#![tactic(auto)]

mod loading;
mod storing;

ghost use Rattle.header.specs.Header.{HeaderLong, LoadsBack, LoadedInRange, StaysInRange, FittedInRange, FreshInRange};

pub use loading::load;
pub use storing::store;

// What is stored is loaded again.
pub fn loads_back_stands() -> u8
    ensures long { HeaderLong }
    ensures back { LoadsBack }
{
    0
}

// Terminals stay such as a header can hold.
pub fn in_range_stands() -> u8
    ensures loaded { LoadedInRange }
    ensures stays { StaysInRange }
    ensures fitted { FittedInRange }
    ensures fresh { FreshInRange }
{
    0
}
