// How the state of several windows and panes is kept in the machine's memory (specs/Many.antt), and what is proved of it.
#![tactic(auto)]

ghost use Rattle.meaning.specs.Leaving.{ComesBack};
ghost use Rattle.meaning.specs.Promise.{Whole, everything};
ghost use Rattle.stored.specs.Laws.{ManyBack, ManyFit, LengthMany, SmallMany, ManyZero, ManyRefuses, ManyRoom};
ghost use Rattle.stored.specs.Machine.{many_machine};

// A state that the memory has room for is found again after it was put in.
pub fn many_back_stands() -> u8
    ensures { ManyBack }
{
    0
}

// The memory is then seen to hold a state.
pub fn many_fit_stands() -> u8
    ensures { ManyFit }
{
    0
}

// Putting any state in keeps the memory's length.
pub fn length_many_stands() -> u8
    ensures { LengthMany }
{
    0
}

// Putting any state in keeps the memory's numbers below 2^64.
pub fn small_many_stands() -> u8
    ensures { SmallMany }
{
    0
}

// Memory that is all 0 stands for the glass at first.
pub fn many_zero_stands() -> u8
    ensures { ManyZero }
{
    0
}

// What is accepted is in range.
pub fn many_refuses_stands() -> u8
    ensures { ManyRefuses }
{
    0
}

// What is found in an accepted memory has room there.
pub fn many_room_stands() -> u8
    ensures { ManyRoom }
{
    0
}

// The whole promise, of the machine for several windows and panes with every key known.
pub fn whole_many_stands() -> u8
    ensures { Whole everything (many_machine everything) }
{
    0
}

// And after any time in which nobody looks, whoever attaches sees the plain glass's picture.
pub fn many_comes_back_stands() -> u8
    ensures { ComesBack everything (many_machine everything) }
{
    0
}
