// A header loaded, a few numbers at a time; what no terminal can hold is refused.
ghost use Rattle.std.specs.Prelude.{◌≡◌, ◌<◌, ◌≤◌, true, false, MatchOption, slice_index};
ghost use Rattle.terminal.specs.Terms.{saved_of, reading_of};
ghost use Rattle.header.specs.Header.{yes, saved_from, reading_from, size_fits, cursor_fits, region_fits, parameters_at, parameters_fit, reading_fits, header_fits};
ghost use Rattle.header.specs.Outcomes.{Loaded};

use grid::cell::Rendition;
use grid::size::Size;
use terminal::state::{Cursor, Kept, Modes, Parameters, Parser, Terminal};

fn load_size(header: &[u64; 64]) -> Option<Size>
    ensures { MatchOption result (size_fits header.now ≡ false)
        (λ s. (size_fits header.now ≡ true) × (s.wide ≡ slice_index header.now 0) × (s.high ≡ slice_index header.now 1)) }
{
    Size::new(header[0] as usize, header[1] as usize)
}

fn load_cursor(header: &[u64; 64], size: Size) -> Option<Cursor>
    requires { (size.wide ≡ slice_index header.now 0) × (size.high ≡ slice_index header.now 1) }
    ensures { MatchOption result (cursor_fits header.now ≡ false)
        (λ c. (cursor_fits header.now ≡ true) × (c.row ≡ slice_index header.now 2) × (c.col ≡ slice_index header.now 3)
        × (c.pending ≡ yes (slice_index header.now 4)) × (c.row < size.high) × (c.col < size.wide)) }
{
    let row = header[2] as usize;
    let col = header[3] as usize;
    if row >= size.high || col >= size.wide {
        return None;
    }
    Some(Cursor {
        row,
        col,
        pending: header[4] == 1,
    })
}

// The scroll region's first and last row.
fn load_region(header: &[u64; 64], size: Size) -> Option<(usize, usize)>
    requires { size.high ≡ slice_index header.now 1 }
    ensures { MatchOption result (region_fits header.now ≡ false)
        (λ p. (region_fits header.now ≡ true) × (p.0 ≡ slice_index header.now 6) × (p.1 ≡ slice_index header.now 7) × (p.0 ≤ p.1) × (p.1 < size.high)) }
{
    let top = header[6] as usize;
    let bottom = header[7] as usize;
    if top > bottom || bottom >= size.high {
        return None;
    }
    Some((top, bottom))
}

fn load_modes(header: &[u64; 64]) -> Modes
    ensures { (result.insert ≡ yes (slice_index header.now 8)) × (result.autowrap ≡ yes (slice_index header.now 9))
        × (result.origin ≡ yes (slice_index header.now 10)) × (result.visible ≡ yes (slice_index header.now 11)) }
{
    Modes {
        insert: header[8] == 1,
        autowrap: header[9] == 1,
        origin: header[10] == 1,
        visible: header[11] == 1,
    }
}

fn load_kept(header: &[u64; 64]) -> Kept
    ensures { saved_of result ≡ saved_from header.now }
{
    Kept {
        row: header[12] as usize,
        col: header[13] as usize,
        rendition: Rendition::from(header[14]),
        origin: header[15] == 1,
    }
}

// Set by number, since of an array gone through by iter_mut in a zip nothing is known afterwards.
fn load_parameters(header: &[u64; 64]) -> Option<[u16; 16]>
    ensures { let numbers = parameters_at header.now in MatchOption result (parameters_fit numbers ≡ false) (λ l. (parameters_fit numbers ≡ true) × (l ≡ numbers)) }
{
    let mut list = [0; 16];
    for (k, n) in header[32..48].iter().enumerate() {
        list[k] = u16::try_from(*n).ok()?;
    }
    Some(list)
}

fn load_parser(header: &[u64; 64]) -> Option<Parser>
    ensures { MatchOption result (reading_fits header.now ≡ false) (λ p. (reading_fits header.now ≡ true) × (reading_of p ≡ reading_from header.now)) }
{
    if header[18] > 16 {
        return None;
    }
    let value = u16::try_from(header[20]).ok()?;
    let list = load_parameters(header)?;
    Some(match header[16] {
        0 => Parser::Ground,
        1 => Parser::Escape,
        2 => Parser::Sequence(
            header[17] == 1,
            Parameters {
                list,
                count: header[18] as usize,
                begun: (header[19] == 1).then_some(value),
            },
        ),
        3 => Parser::Ignored,
        4 => Parser::Text,
        5 => Parser::TextEnd,
        _ => return None,
    })
}

// The terminal that the numbers stand for; none if they are not 64 or one is out of range.
#[tactic(auto, unfolding(crate::specs::Header::header_fits, crate::specs::Header::term_from))]
pub fn load(header: &[u64]) -> Option<Terminal>
    ensures { MatchOption result (header_fits header.now ≡ false) (λ t. Loaded header.now t) }
{
    let header = header.as_array::<64>()?;
    let size = load_size(header)?;
    let cursor = load_cursor(header, size)?;
    let (top, bottom) = load_region(header, size)?;
    let parser = load_parser(header)?;
    let rendition = Rendition::from(header[5]);
    let modes = load_modes(header);
    let kept = load_kept(header);
    Some(Terminal {
        size,
        cursor,
        rendition,
        top,
        bottom,
        modes,
        kept,
        parser,
    })
}
