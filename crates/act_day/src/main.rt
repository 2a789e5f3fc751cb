// The glass over files: a day on standard input, or in the file named as the argument, and the machine's acts on standard output.
#![tactic(auto)]

use days::print_acts;
use following::Follows;
use live::{MEMORY, OUT};
use serve::{Acts, BUDGET, Coming, Ended, serve};
use std::alloc::Global;
use std::io::Write;

// The machine with its memory, the row lent to it, and its acts.
#[derive(Drop)]
struct Machine {
    memory: Vec<u64>,
    out: Vec<u8>,
    acts: Acts,
}

impl Machine {
    fn start(heap: Global) -> anyhow::Result<Machine> {
        let memory = vec![in heap; 0u64; MEMORY]?;
        let out = vec![in heap; 0u8; OUT]?;
        Ok(Machine {
            memory,
            out,
            acts: Acts::new(heap),
        })
    }

    // The lines of the acts since the last time.
    fn lines(&mut self, text: &mut Vec<u8>) -> anyhow::Result<()> {
        text.clear();
        let acts = &self.acts;
        print_acts(
            text,
            acts.told.as_slice(),
            acts.written.as_slice(),
            acts.sent.as_slice(),
        )?;
        self.acts.clear();
        Ok(())
    }
}

impl Follows for Machine {
    // What is done until the machine waits is put behind the acts.
    fn comes(&mut self, coming: Coming, bytes: &[u8]) -> anyhow::Result<bool> {
        let memory = self.memory.as_mut_slice();
        let out = self.out.as_mut_slice();
        let end = serve(&mut self.acts, memory, out, BUDGET, coming, bytes)?;
        Ok(matches!(end, Ended::Over))
    }
}

fn run(rt: &HostRuntime) -> anyhow::Result<()> {
    let heap = rt.alloc();
    let day = following::read(rt)?;
    let mut machine = Machine::start(heap)?;
    let mut acts = Vec::new(heap);
    for line in &day {
        let over = machine.line(line);
        // What was done before a fault is printed too.
        machine.lines(&mut acts)?;
        rt.stdout().write_all(acts.as_slice())?;
        if over? {
            break;
        }
    }
    Ok(())
}

fn main(rt: HostRuntime) -> anyhow::Result<()> {
    run(&rt)
}
