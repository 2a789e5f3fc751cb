// What has come, was sent and was granted, over a whole day.
ghost use Rattle.std.specs.Prelude.{◌≡◌, MatchOption};
ghost use Rattle.player.specs.Grants.{tally_on, TooLarge};

#[derive(Clone, Copy)]
pub struct Tally {
    // Things that came.
    pub things: u64,
    // Bytes that were written to the screen.
    pub sent: u64,
    // Bytes that were granted.
    pub granted: u64,
}

impl Tally {
    // One more thing; none where a sum would be too large.
    pub fn add(self, bytes: u64, grants: u64) -> Option<Tally>
        ensures { MatchOption result (TooLarge self bytes grants) (λ t. t ≡ tally_on self bytes grants) }
    {
        Some(Tally {
            things: self.things.checked_add(1)?,
            sent: self.sent.checked_add(bytes)?,
            granted: self.granted.checked_add(grants)?,
        })
    }
}
