// The entry that changes a style, given as one number, by the numbers of one SGR.
ghost use Rattle.std.specs.Prelude.{◌≡◌, ◌&&◌, true, false, MatchResult};
ghost use Rattle.meaning.specs.Entry.{restyled, a_colour, as_number, as_style, a_style};
ghost use Rattle.meaning.specs.Screen.{styled};
ghost use Rattle.grid.specs.Cells.{style_of};
ghost use Rattle.meaning.specs.declared.answer.Refusal.TheVariants.{NoStyle};

use crate::sgr::change;
use grid::cell::Rendition;
use meaning::Refusal;

fn is_colour(k: u64) -> bool
    ensures { result ≡ a_colour k }
{
    k < 8 || k == 9
}

// The style's number in the formal statement, which is not the one that a cell has (From).
fn as_rendition(style: u64) -> Result<Rendition, Refusal>
    ensures { MatchResult result (λ r. (a_style style ≡ true) × (style_of r ≡ as_style style)) (λ e. (a_style style ≡ false) × (e ≡ NoStyle)) }
{
    let (marks, fore, back) = (style / 100, style / 10 % 10, style % 10);
    if marks >= 8 || !is_colour(fore) || !is_colour(back) {
        return Err(Refusal::NoStyle);
    }
    Ok(Rendition {
        marks: marks as u16,
        fore: fore as u8,
        back: back as u8,
    })
}

fn number_of(r: Rendition) -> u64
    ensures { result ≡ as_number (style_of r) }
{
    100 * u64::from(r.marks) + 10 * u64::from(r.fore) + u64::from(r.back)
}

// A line for numbers of either width (sgr.rt has the other): one function over Into<u64> would have to speak of that conversion in its contract.
fn changed(start: Rendition, numbers: &[u64]) -> Rendition
    ensures { style_of result ≡ styled (style_of start) numbers.now }
{
    numbers.iter().fold(start, |s, n| change(s, *n))
}

// A style after the numbers of one SGR.
pub fn restyle(style: u64, numbers: &[u64]) -> Result<u64, Refusal>
    ensures { result ≡ restyled style numbers.now }
{
    let start = as_rendition(style)?;
    if numbers.len() > 16 {
        return Err(Refusal::TooMany);
    }
    Ok(number_of(changed(start, numbers)))
}
