// What the promise grants for one thing that comes.
ghost use Rattle.std.specs.Prelude.{◌≡◌, ℕ, ◌*◌, length};
ghost use Rattle.meaning.specs.Picture.{differs};
ghost use Rattle.grid.specs.Cells.{rows_of};
ghost use Rattle.render_law.specs.Law as law;
ghost use Rattle.player.specs.Grants.{grant, still_attached};

use meaning::Told;

// In how many cells two screens differ, in character or style.
pub fn differing(before: &[u64], after: &[u64]) -> usize
    ensures flat { result ≡ law.differing before.now after.now }
    ensures rows { (w h : ℕ) → length before.now ≡ h * w → length after.now ≡ h * w → result ≡ differs (rows_of w h before.now) (rows_of w h after.now) }
{
    // By number: `zip`, `filter` and `count` take three times the instructions for each cell, also over parts cut to one length.
    let end = before.len().min(after.len());
    let mut count = 0;
    for i in 0..end {
        if before[i] != after[i] {
            count += 1;
        }
    }
    count
}

// How many bytes are granted where so many cells differ; a screen has 12,000 at most.
pub fn granted(attached: bool, over: bool, cells: usize) -> u64
    ensures { result ≡ grant attached over cells }
{
    if over {
        64
    } else if attached {
        64 + 32 * cells.min(12000) as u64
    } else {
        0
    }
}

// Whether somebody is still attached after these acts.
pub fn attached_after(attached: bool, acts: &[Told]) -> bool
    ensures { result ≡ still_attached attached acts.now }
{
    attached && !acts.iter().any(|act| matches!(act, Told::Leave))
}
