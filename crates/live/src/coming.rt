// What comes to the machine.
ghost use Rattle.std.specs.Prelude.{◌≡◌, nat_lt};
ghost use Rattle.meaning.specs.Promise.{proper_event};
ghost use Rattle.live.specs.Coming.{event_of};

// How many bytes come at a time at most.
const MOST_BYTES: usize = 4096;

#[derive(Clone, Copy)]
pub enum Coming {
    // A key.
    Key(u8),
    // Bytes from this pane's program; they stand beside it.
    From(u64),
    // This pane's program has ended.
    Gone(u64),
    // Somebody attaches, or has another size: columns and rows.
    Look(u64, u64),
}

// Any byte is a key. This stands in a function of its own, where a byte is known to be below 256; in an arm that takes it out of a variant it is not.
fn is_key(key: u8) -> bool
    ensures { result ≡ nat_lt key 256 }
{
    u64::from(key) < 256
}

// A screen has 1 to 200 columns and 2 to 60 rows, one for the status line.
pub(crate) fn is_proper(coming: Coming, bytes: &[u8]) -> bool
    ensures { result ≡ proper_event (event_of coming bytes.now) }
{
    match coming {
        Coming::Key(key) => is_key(key),
        Coming::From(_) => bytes.len() <= MOST_BYTES,
        Coming::Gone(_) => true,
        Coming::Look(columns, rows) => (1..=200).contains(&columns) && (2..=60).contains(&rows),
    }
}
