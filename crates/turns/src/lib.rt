// What a machine that knows no key after the prefix does in one step, over its memory: each turn leaves the memory and tells the act that the definition has.
// `go_on`, `press` and `end` begin with the same two tests; a function that took the turn as a closure would have to say in its contract what the closure
// does with both arrays.
#![tactic(auto)]

pub mod ends;
pub mod keys;
pub mod show;
