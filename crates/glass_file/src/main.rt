// The glass over files: a day on standard input, or in the file named as the argument, and on standard output the acts of the step
// that only waits. Those of the machine that runs are act_day's.
#![tactic(auto)]

use anyhow::bail;
use days::print_act;
use following::Follows;
use glass::{MEMORY, OUT, step};
use live::Coming;
use meaning::Told;
use std::alloc::Global;
use std::io::Write;

// How often the machine may act for one thing that comes, before that is taken for a fault.
const MOST: usize = 1000000;

// The machine with its memory, the row lent to it, and the lines printed so far.
#[derive(Drop)]
struct Machine {
    memory: Vec<u64>,
    out: Vec<u8>,
    acts: Vec<u8>,
}

impl Machine {
    fn start(heap: Global) -> anyhow::Result<Machine> {
        let memory = vec![in heap; 0u64; MEMORY]?;
        let out = vec![in heap; 0u8; OUT]?;
        Ok(Machine {
            memory,
            out,
            acts: Vec::new(heap),
        })
    }

    // One step, and its line.
    fn act(&mut self, kind: u64, a: u64, b: u64, bytes: &[u8]) -> anyhow::Result<Told> {
        let told = step(
            self.memory.as_mut_slice(),
            kind,
            a,
            b,
            bytes,
            self.out.as_mut_slice(),
        );
        print_act(&mut self.acts, told, self.out.as_slice())?;
        Ok(told)
    }

    // One thing that comes, and what is done until the machine waits; whether it is over then.
    fn serve(&mut self, kind: u64, a: u64, b: u64, bytes: &[u8]) -> anyhow::Result<bool> {
        // What the machine is told: what has come, and from then on to go on.
        let mut next = (kind, a, b, bytes);
        let mut over = false;
        for _ in 0..MOST {
            let (kind, a, b, bytes) = next;
            match self.act(kind, a, b, bytes)? {
                Told::Wait => return Ok(over),
                Told::No(_) => bail!("the machine refuses its memory"),
                Told::Over => over = true,
                _ => {}
            }
            next = (4, 0, 0, &[]);
        }
        bail!("the machine does not come to wait")
    }
}

impl Follows for Machine {
    // The interface to C and the formal statement tell `step` a kind and numbers.
    fn comes(&mut self, coming: Coming, bytes: &[u8]) -> anyhow::Result<bool> {
        let (kind, a, b) = match coming {
            Coming::Key(code) => (0, u64::from(code), 0),
            Coming::From(pane) => (1, pane, 0),
            Coming::Gone(pane) => (2, pane, 0),
            Coming::Look(columns, rows) => (3, columns, rows),
        };
        self.serve(kind, a, b, bytes)
    }
}

fn run(rt: &HostRuntime) -> anyhow::Result<()> {
    let day = following::read(rt)?;
    let mut machine = Machine::start(rt.alloc())?;
    for line in &day {
        let over = machine.line(line)?;
        rt.stdout().write_all(machine.acts.as_slice())?;
        machine.acts.clear();
        if over {
            break;
        }
    }
    Ok(())
}

fn main(rt: HostRuntime) -> anyhow::Result<()> {
    run(&rt)
}
