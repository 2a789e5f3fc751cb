// What a day happens to, line by line.
ghost use Rattle.std.specs.Prelude.{Bool, IfOk, map, ⊤};
ghost use Rattle.meaning.specs.Panes as panes;
ghost use Rattle.meaning.specs.Panes.{Event};
ghost use Rattle.days.specs.Line.{thing_of};
ghost use Rattle.live.specs.Coming.{event_of};
ghost use Rattle.following.specs.Following.{Until, events_of};

use anyhow::Result;
use days::Line;
use live::Coming;

pub trait Follows {
    // What one thing that comes does, and whether it is over then; nothing is claimed where this is left out.
    ghost comes: { Self → Event → Bool → Self → Type 0 } = { λ _ _ _ _. ⊤ };

    // The bytes are those of a pane's program; with all else there are none.
    fn comes(&mut self, coming: Coming, bytes: &[u8]) -> Result<bool>
        ensures { IfOk result (λ over. comes self.old (event_of coming bytes.now) over self.new) };

    // The screen is to be written out, where there is one.
    fn show(&self) -> Result<()> {
        Ok(())
    }

    // One key after another, up to that with which it is over.
    final fn keys(&mut self, codes: &[u8]) -> Result<bool>
        ensures { IfOk result (λ over. Until comes self.old (map panes.key codes.now) over self.new) }
    {
        for code in codes {
            if self.comes(Coming::Key(*code), &[])? {
                return Ok(true);
            }
        }
        Ok(false)
    }

    // One line of the day; whether it is over then.
    final fn line(&mut self, line: &Line) -> Result<bool>
        ensures { IfOk result (λ over. Until comes self.old (events_of (thing_of line.now)) over self.new) }
    {
        match line {
            Line::Look(columns, rows) => self.comes(Coming::Look(*columns, *rows), &[]),
            Line::Keys(codes) => self.keys(codes.as_slice()),
            Line::From(pane, bytes) => self.comes(Coming::From(*pane), bytes.as_slice()),
            Line::Gone(pane) => self.comes(Coming::Gone(*pane), &[]),
            Line::Show => {
                self.show()?;
                Ok(false)
            }
            Line::Nothing => Ok(false),
        }
    }
}
