// How large a screen is, 1 to 200 columns and 1 to 60 rows, and a place on it.
ghost use Rattle.std.specs.Prelude.{◌≡◌, ◌*◌, ◌<◌, ◌≤◌, true, false, ◌&&◌, MatchOption, nat_le, nat_lt};

#[derive(Clone, Copy, PartialEq, Eq)]
pub struct Size {
    pub wide: usize,
    pub high: usize,
    ghost ok: { (0 < wide) × (wide ≤ 200) × (0 < high) × (high ≤ 60) },
}

impl Size {
    // Refuses what no screen can be.
    pub fn new(wide: usize, high: usize) -> Option<Size>
        ensures { MatchOption result
            ((nat_lt 0 wide && (nat_le wide 200 && (nat_lt 0 high && nat_le high 60))) ≡ false)
            (λ s. ((nat_lt 0 wide && (nat_le wide 200 && (nat_lt 0 high && nat_le high 60))) ≡ true) × (s.wide ≡ wide) × (s.high ≡ high)) }
    {
        if wide == 0 || wide > 200 || high == 0 || high > 60 {
            return None;
        }
        Some(Size { wide, high })
    }

    // How many cells the screen has.
    pub fn cells(self) -> usize
        ensures { (result ≡ self.high * self.wide) × (result ≤ 12000) }
    {
        self.high * self.wide
    }
}

// A row and a column, counted from 0.
#[derive(Clone, Copy, PartialEq, Eq)]
pub struct Place {
    pub row: usize,
    pub col: usize,
}
