// The machine and the viewer's screen, and what comes to both.
ghost use Rattle.std.specs.Prelude.{ℕ, List, IfOk, OnOk};
ghost use Rattle.engine.specs.Detaching.{detaching_machine};
ghost use Rattle.serve.specs.Coming.{event_of};
ghost use Rattle.player.specs.Plays.{Begins, Looked, Attended, ServedSo, Seen, Judged, Plays};

use crate::count::{attached_after, differing, granted};
use crate::fault::Fault;
use crate::screen::Screen;
use crate::tally::Tally;
use grid::size::Size;
use live::{MEMORY, OUT};
use serve::{Acts, BUDGET, Coming, Ended, serve};
use std::alloc::Global;

#[derive(Drop)]
pub struct Player {
    memory: Vec<u64>,
    out: Vec<u8>,
    // What the machine did for the thing that came last.
    acts: Acts,
    attached: bool,
    pub screen: Screen,
    pub tally: Tally,
}

impl Player {
    // Nothing has come yet: memory is all 0, the screen has one cell, and nobody is attached.
    pub fn new(heap: Global) -> Result<Player, Fault>
        ensures { IfOk result (λ p. Begins p) }
    {
        let size = Size::new(1, 1).unwrap();
        Ok(Player {
            memory: vec![in heap; 0u64; MEMORY]?,
            out: vec![in heap; 0u8; OUT]?,
            acts: Acts::new(heap),
            attached: false,
            screen: Screen::new(heap, size)?,
            tally: Tally {
                things: 0,
                sent: 0,
                granted: 0,
            },
        })
    }

    // Whoever attaches has a fresh screen.
    fn look(&mut self, columns: u64, rows: u64) -> Result<(), Fault>
        ensures { OnOk result (Looked self.old columns rows self.new) }
    {
        let size = Size::new(columns as usize, rows as usize).ok_or(Fault::NoSize)?;
        self.screen = Screen::new(*self.memory.allocator(), size)?;
        self.attached = true;
        Ok(())
    }

    // What comes to the screen itself.
    fn attend(&mut self, coming: Coming) -> Result<(), Fault>
        ensures { OnOk result ((bs : List ℕ) → Attended self.old (event_of coming bs) self.new) }
    {
        match coming {
            Coming::Look(columns, rows) => self.look(columns, rows),
            _ => Ok(()),
        }
    }

    // The machine until it waits; whether it is over then.
    fn serve(&mut self, coming: Coming, bytes: &[u8]) -> Result<bool, Fault>
        ensures { IfOk result (λ over. ServedSo detaching_machine (event_of coming bytes.now) self.old over self.new) }
    {
        self.acts.clear();
        let memory = self.memory.as_mut_slice();
        let out = self.out.as_mut_slice();
        match serve(&mut self.acts, memory, out, BUDGET, coming, bytes)? {
            Ended::Waits => Ok(false),
            Ended::Over => Ok(true),
        }
    }

    // What it wrote goes to the screen.
    fn see(&mut self) -> Result<(), Fault>
        ensures { OnOk result (Seen self.old self.new) }
    {
        if !self.screen.write(self.acts.written.as_slice()) {
            return Err(Fault::WrongCells);
        }
        self.attached = attached_after(self.attached, self.acts.told.as_slice());
        Ok(())
    }

    // The bytes that were written, held to those that are granted.
    fn judge(&mut self, before: &[u64], over: bool) -> Result<(), Fault>
        ensures { OnOk result (Judged self.old before.now over self.new) }
    {
        let sent = self.acts.written.len() as u64;
        let cells = differing(before, self.screen.cells.as_slice());
        let grants = granted(self.attached, over, cells);
        if sent > grants {
            return Err(Fault::TooMany);
        }
        self.tally = self.tally.add(sent, grants).ok_or(Fault::TooLong)?;
        Ok(())
    }

    // One thing that comes; whether it is over then. After a fault nothing is said of the player.
    pub fn comes(&mut self, coming: Coming, bytes: &[u8]) -> Result<bool, Fault>
        ensures { IfOk result (λ over. Plays detaching_machine (event_of coming bytes.now) self.old over self.new) }
    {
        self.attend(coming)?;
        let before = self.screen.cells.clone()?;
        let over = self.serve(coming, bytes)?;
        self.see()?;
        self.judge(before.as_slice(), over)?;
        Ok(over)
    }
}
