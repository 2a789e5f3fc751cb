// A worked example of the plain glass with several windows and panes, in one table, proved from the definitions.
#![tactic(auto)]

ghost use Rattle.watch.specs.Watch.{TheWatch, TheSight};

// To each thing that comes in the table of specs/Watch.antt the plain glass says what stands beside it.
pub fn watch_stands() -> u8
    ensures { TheWatch }
{
    0
}

// At each look in the table the plain glass's picture and cursor are those that stand there, with every cell's style.
pub fn sight_stands() -> u8
    ensures { TheSight }
{
    0
}
