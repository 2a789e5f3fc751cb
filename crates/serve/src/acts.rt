// What the machine did, in order.
ghost use Rattle.std.specs.Prelude.{◌≡◌, take, OnOk};
ghost use Rattle.serve.specs.Log.{log_of, no_acts, kept};

use meaning::Told;
use std::alloc::{AllocError, Global};

#[derive(Drop)]
pub struct Acts {
    pub told: Vec<Told>,
    // The bytes of each Write, one behind the other.
    pub written: Vec<u8>,
    // Those of each Send.
    pub sent: Vec<u8>,
}

impl Acts {
    pub fn new(heap: Global) -> Acts
        ensures { log_of result ≡ no_acts }
    {
        Acts {
            told: Vec::new(heap),
            written: Vec::new(heap),
            sent: Vec::new(heap),
        }
    }

    pub fn clear(&mut self)
        ensures { log_of self.new ≡ no_acts }
    {
        self.told.clear();
        self.written.clear();
        self.sent.clear();
    }

    // One more act, whose bytes are the first of `out`. Where memory fails, the log may have got the act without them.
    pub(crate) fn note(&mut self, told: Told, out: &[u8]) -> Result<(), AllocError>
        ensures { OnOk result (log_of self.new ≡ kept (log_of self.old) told out.now) }
    {
        self.told.push(told)?;
        match told {
            Told::Write(n) => self
                .written
                .extend_from_slice(&out[..out.len().min(n as usize)]),
            Told::Send(n) => self
                .sent
                .extend_from_slice(&out[..out.len().min((n % 65536) as usize)]),
            _ => Ok(()),
        }
    }
}
