// A screen's cells in lent memory: a flat slice of numbers, row after row, one number a cell.
// Each edit says what it does to the rows, and refuses cells that are not the screen's or places outside it, changing nothing.
// Size and cells stand beside one another: for a struct of both, which its ghost field says to fit, no function can refuse (an Option of it is not covered).
// Whether an edit was done is a bool: nothing comes with it, and there is one reason to refuse for each, which its contract names.
#![tactic(auto)]

pub mod cell;
pub mod line;
pub mod resize;
pub mod rows;
pub mod shift;
pub mod size;
