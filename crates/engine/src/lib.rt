// Machines as definitions, and what is proved of them: the one that runs, which knows d (specs/Detaching.antt), one that knows no key (Core) and one that only
// waits (Own).
#![tactic(auto)]

ghost use Rattle.meaning.specs.Promise.{Steady, Whole, core, detaching};
ghost use Rattle.meaning.specs.Leaving.{ComesBack};
ghost use Rattle.engine.specs.Core.{core_machine};
ghost use Rattle.engine.specs.Own.{own};
ghost use Rattle.engine.specs.Detaching.{detaching_machine};

// How many numbers the memory has.
pub const MEMORY: usize = 238304;

// Where the pane's header of 64 numbers begins in the memory.
pub const HEADER: usize = 256;

// Where the viewer's screen begins.
pub const SCREEN: usize = 2304;

// Where the pane's cells begin.
pub const CELLS: usize = 38304;

// How many cells a screen has at most.
pub const MOST_CELLS: usize = 12000;

// How many bytes the lent row has at least: the longest that is ever said.
pub const OUT: usize = 65536;

// Memory is all 0 at the start; it never grows, nor do its numbers beyond 64 bits.
pub fn steady_stands() -> u8
    ensures { Steady own }
{
    0
}

// The whole promise, of the machine for one window with one pane that knows no key.
pub fn whole_core_stands() -> u8
    ensures { Whole core core_machine }
{
    0
}

// And of the machine that runs, which knows d.
pub fn whole_stands() -> u8
    ensures { Whole detaching detaching_machine }
{
    0
}

// After any time in which nobody looks, whoever attaches sees the plain glass's picture.
pub fn comes_back_stands() -> u8
    ensures { ComesBack detaching detaching_machine }
{
    0
}
