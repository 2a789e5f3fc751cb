// The parameters of a control sequence, as their digits come.
ghost use Rattle.std.specs.Prelude.{◌≡◌, ◌<◌, ◌&&◌, [], ◌∷◌, ◌++◌, take, slice_index};
ghost use Rattle.meaning.specs.Words.{none_of};
ghost use Rattle.meaning.specs.Bytes.{add_digit, ended, all_numbers, one_of};
ghost use Rattle.terminal.specs.Terms.{numbers_of, begun_of};

use crate::state::Parameters;

// The kth parameter, or 0.
pub(crate) fn value_at(ps: &[u16], k: usize) -> usize
    ensures { (result ≡ slice_index ps.now k) × (result < 65536) }
{
    ps.get(k).map_or(0, |p| usize::from(*p))
}

// The kth parameter, but at least 1.
pub(crate) fn count_at(ps: &[u16], k: usize) -> usize
    ensures { (result ≡ one_of ps.now k) × (result < 65536) }
{
    value_at(ps, k).max(1)
}

impl Parameters {
    pub(crate) fn none() -> Parameters
        ensures { (numbers_of result ≡ []) × (begun_of result.begun ≡ []) }
    {
        Parameters {
            list: [0; 16],
            count: 0,
            begun: None,
        }
    }

    // One more digit of the parameter that has begun, or the first of one that begins.
    pub(crate) fn digit(self, d: u8) -> Parameters
        ensures { (numbers_of result ≡ numbers_of self) × (begun_of result.begun ≡ add_digit (begun_of self.begun) d) }
    {
        let Parameters { list, count, begun } = self;
        let v = (10 * begun.unwrap_or(0) as u32 + d as u32).min(9999) as u16;
        Parameters {
            list,
            count,
            begun: Some(v),
        }
    }

    // The parameter that has begun is whole; past sixteen it doesn't count.
    pub(crate) fn end(self) -> Parameters
        ensures { (numbers_of result ≡ take 16 (numbers_of self ++ ended (begun_of self.begun) ∷ [])) × (begun_of result.begun ≡ []) }
    {
        let Parameters {
            mut list,
            mut count,
            begun,
        } = self;
        if count < 16 {
            list[count] = begun.unwrap_or(0);
            count += 1;
        }
        Parameters {
            list,
            count,
            begun: None,
        }
    }

    pub(crate) fn is_empty(self) -> bool
        ensures { result ≡ (none_of (numbers_of self) && none_of (begun_of self.begun)) }
    {
        self.begun.is_none() && self.count == 0
    }

    // All of them, at the final byte.
    pub(crate) fn all(self) -> Parameters
        ensures { numbers_of result ≡ all_numbers (numbers_of self) (begun_of self.begun) }
    {
        if self.is_empty() {
            Parameters::none()
        } else {
            self.end()
        }
    }
}
