// Bytes added at the end of what a lent row holds so far. Where there is no room nothing changes.
#![tactic(auto)]

ghost use Rattle.std.specs.Prelude.{◌≡◌, ◌+◌, ◌<◌, ◌≤◌, [], ◌∷◌, length};
ghost use Rattle.meaning.specs.Bytes.{in_digits};
ghost use Rattle.output.specs.Added.{Adds, Unchanged};

// A lent row of bytes, of which the first `len` count.
#[derive(Drop)]
pub struct Buffer<'a> {
    pub bytes: &'a mut [u8],
    pub len: usize,
}

impl Buffer<'_> {
    // One byte.
    pub fn push(&mut self, b: u8)
        ensures added { self.old.len < length self.old.bytes.now → Adds self.old self.new (b ∷ []) }
        ensures full { length self.old.bytes.now ≤ self.old.len → Unchanged self.old self.new }
    {
        if self.len < self.bytes.len() {
            self.bytes[self.len] = b;
            self.len += 1;
        }
    }

    // Several bytes, where there is room for all of them.
    pub fn text(&mut self, bytes: &[u8])
        ensures added { self.old.len + length bytes.now ≤ length self.old.bytes.now → Adds self.old self.new bytes.now }
        ensures full { length self.old.bytes.now < self.old.len + length bytes.now → Unchanged self.old self.new }
    {
        if self.len <= self.bytes.len() && bytes.len() <= self.bytes.len() - self.len {
            let end = self.len + bytes.len();
            self.bytes[self.len..end].copy_from_slice(bytes);
            self.len = end;
        }
    }

    // A number below 1,000 in decimal, where there is room for three digits. The library writes decimals into a row of its own, which would be copied from.
    pub fn number(&mut self, k: usize)
        ensures added { self.old.len + 3 ≤ length self.old.bytes.now → k < 1000 → Adds self.old self.new (in_digits k) }
        ensures most { self.new.len ≤ self.old.len + 3 }
        ensures full { length self.old.bytes.now < self.old.len + 3 → Unchanged self.old self.new }
        ensures large { 1000 ≤ k → Unchanged self.old self.new }
    {
        if self.bytes.len() < 3 || self.len > self.bytes.len() - 3 || k >= 1000 {
            return;
        }
        if k < 10 {
            self.push(b'0' + k as u8);
        } else if k < 100 {
            self.push(b'0' + (k / 10) as u8);
            self.push(b'0' + (k % 10) as u8);
        } else {
            self.push(b'0' + (k / 100) as u8);
            self.push(b'0' + (k / 10 % 10) as u8);
            self.push(b'0' + (k % 10) as u8);
        }
    }
}
