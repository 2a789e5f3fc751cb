// The viewer's screen: a terminal of our own with its cells.
ghost use Rattle.std.specs.Prelude.{◌≡◌, true, IfOk};
ghost use Rattle.meaning.specs.Screen.{fresh};
ghost use Rattle.player.specs.Screens.{screen_of, whole_screen, Wrote};

use grid::size::Size;
use shown::feed::feed_all;
use std::alloc::{AllocError, Global};
use terminal::state::Terminal;

#[derive(Drop)]
pub struct Screen {
    pub term: Terminal,
    pub cells: Vec<u64>,
}

impl Screen {
    // As it comes up.
    pub fn new(heap: Global, size: Size) -> Result<Screen, AllocError>
        ensures { IfOk result (λ s. (screen_of s ≡ fresh size.wide size.high) × (whole_screen s ≡ true)) }
    {
        let mut cells = vec![in heap; 0u64; size.cells()]?;
        let term = Terminal::start(size, cells.as_mut_slice()).unwrap();
        Ok(Screen { term, cells })
    }

    // Bytes of any number; nothing, and false, where the cells are not the terminal's, as feed_all answers.
    pub fn write(&mut self, bytes: &[u8]) -> bool
        ensures { Wrote self.old bytes.now result self.new }
    {
        feed_all(&mut self.term, self.cells.as_mut_slice(), bytes)
    }
}
