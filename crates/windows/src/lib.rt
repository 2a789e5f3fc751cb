// What always holds of windows and panes, and how a turn is done in parts: one thing that comes, then one pane at a time.
#![tactic(auto)]

ghost use Rattle.windows.specs.Invariants.{KeepsSane};
ghost use Rattle.windows.specs.Settling.{SettlesBySteps};
ghost use Rattle.windows.specs.Parts.{PartSettles, StaysAtRest};
ghost use Rattle.windows.specs.Cells.{CellsAtRest, CellsWhileSettling};

// What always holds of windows and panes holds at first, and every turn keeps it, whatever keys are known.
pub fn sane_turn_stands() -> u8
    ensures { KeepsSane }
{
    0
}

// Panes can be brought to the size of their places one at a time, in at most 32 steps; then nothing is left to settle.
pub fn settles_stands() -> u8
    ensures { SettlesBySteps }
{
    0
}

// From rest, a turn is what is done and said at once, at most one thing, and then settling.
pub fn part_settles_stands() -> u8
    ensures { PartSettles }
{
    0
}

// Nothing is left to settle after any turn.
pub fn stays_at_rest_stands() -> u8
    ensures { StaysAtRest }
{
    0
}

// At rest all panes together have at most 99,200 cells on a screen of up to 200 x 60.
pub fn cells_at_rest_stands() -> u8
    ensures { CellsAtRest }
{
    0
}

// While sizes change there are never more than twice as many.
pub fn cells_while_settling_stands() -> u8
    ensures { CellsWhileSettling }
{
    0
}
