// Moves within a slice of numbers.
ghost use Rattle.std.specs.Prelude.{◌≡◌, ◌-◌, min, ◌++◌, length, take, drop, replicate};

// All go n places to the front, n leave there, and as many of v come in behind.
pub fn shift_out(s: &mut [u64], n: usize, v: u64)
    ensures { s.new ≡ drop n s.old ++ replicate (min n (length s.old)) v }
{
    let len = s.len();
    let k = n.min(len);
    s.copy_within(k..len, 0);
    s[len - k..len].fill(v);
}

// All go n places to the back, n leave there, and as many of v come in in front.
pub fn shift_in(s: &mut [u64], n: usize, v: u64)
    ensures { s.new ≡ replicate (min n (length s.old)) v ++ take (length s.old - n) s.old }
{
    let len = s.len();
    let k = n.min(len);
    s.copy_within(0..len - k, k);
    s[0..k].fill(v);
}
