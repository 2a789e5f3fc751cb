// Parts of slices that may reach past the end.
ghost use Rattle.std.specs.Prelude.{◌≡◌, ◌+◌, take, drop};
ghost use Rattle.days.specs.Line.{up_to};

// The first bytes, or all where there are not so many.
pub(crate) fn first(bytes: &[u8], n: usize) -> &[u8]
    ensures { result.now ≡ take n bytes.now }
{
    &bytes[..n.min(bytes.len())]
}

// What stands from place `n` on.
pub(crate) fn rest(bytes: &[u8], n: usize) -> &[u8]
    ensures { result.now ≡ drop n bytes.now }
{
    &bytes[n.min(bytes.len())..]
}

// What stands before the first `stop`, or all, and what stands behind it.
pub(crate) fn cut(bytes: &[u8], stop: u8) -> (&[u8], &[u8])
    ensures before { result.0.now ≡ take (up_to bytes.now stop) bytes.now }
    ensures behind { result.1.now ≡ drop (up_to bytes.now stop + 1) bytes.now }
{
    let n = bytes.iter().take_while(|b| **b != stop).count();
    (&bytes[..n], rest(bytes, n + 1))
}
