// A day played: what the machine writes goes to a screen of our own, which is written out at each `show`; the last line has the bytes sent and granted.
#![tactic(auto)]

ghost use Rattle.engine.specs.Detaching.{detaching_machine};
ghost use Rattle.player.specs.Plays.{Plays};

use following::Follows;
use player::Player;
use serve::Coming;
use shown::screen::write_screen;
use std::io::Write;

// The player, and where its screen is written to.
#[derive(Drop)]
struct Played<'a> {
    player: Player,
    rt: &'a HostRuntime,
}

impl Follows for Played<'_> {
    ghost comes = { λ p event over q. Plays detaching_machine event p.player over q.player };

    fn comes(&mut self, coming: Coming, bytes: &[u8]) -> anyhow::Result<bool> {
        Ok(self.player.comes(coming, bytes)?)
    }

    fn show(&self) -> anyhow::Result<()> {
        let mut text = Vec::new(self.rt.alloc());
        let screen = &self.player.screen;
        write_screen(&mut text, &screen.term, screen.cells.as_slice())?;
        Ok(self.rt.stdout().write_all(text.as_slice())?)
    }
}

fn run(rt: &HostRuntime) -> anyhow::Result<()> {
    let day = following::read(rt)?;
    let player = Player::new(rt.alloc())?;
    let mut played = Played { player, rt };
    for line in &day {
        if played.line(line)? {
            break;
        }
    }
    let t = played.player.tally;
    println!(rt;
        "{} things, {} bytes sent, {} granted",
        t.things, t.sent, t.granted
    )?;
    Ok(())
}

fn main(rt: HostRuntime) -> anyhow::Result<()> {
    run(&rt)
}
