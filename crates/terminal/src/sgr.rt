// Select graphic rendition (SGR).
ghost use Rattle.std.specs.Prelude.{◌≡◌};
ghost use Rattle.meaning.specs.Screen.{styled_one, styled};
ghost use Rattle.terminal.specs.Sgr.{marks_then, colour_then};
ghost use Rattle.grid.specs.Cells.{style_of};

use grid::cell::Rendition;

// The marks after one number: 1, 4 and 7 set bold, underlined and reverse video, 22, 24 and 27 take them out. Marks are a number, as they lie in a cell.
fn marks_after(marks: u16, n: u64) -> u16
    ensures { result ≡ marks_then marks n }
{
    match n {
        0 => 0,
        1 if marks % 2 == 0 => marks + 1,
        4 if marks / 2 % 2 == 0 => marks + 2,
        7 if marks / 4 % 2 == 0 => marks + 4,
        22 if marks % 2 != 0 => marks - 1,
        24 if marks / 2 % 2 != 0 => marks - 2,
        27 if marks / 4 % 2 != 0 => marks - 4,
        _ => marks,
    }
}

// A colour after one number, where its own numbers begin at 30 or 40.
fn colour_after(first: u64, colour: u8, n: u64) -> u8
    ensures { result ≡ colour_then first colour n }
{
    match n.checked_sub(first) {
        Some(k @ 0..=7) => k as u8,
        Some(9) => 9,
        _ if n == 0 => 9,
        _ => colour,
    }
}

// What one number changes.
pub(crate) fn change(r: Rendition, n: u64) -> Rendition
    ensures { style_of result ≡ styled_one (style_of r) n }
{
    let marks = marks_after(r.marks, n);
    let fore = colour_after(30, r.fore, n);
    let back = colour_after(40, r.back, n);
    Rendition { marks, fore, back }
}

pub(crate) fn select_graphic_rendition(start: Rendition, numbers: &[u16]) -> Rendition
    ensures { style_of result ≡ styled (style_of start) numbers.now }
{
    numbers.iter().fold(start, |s, n| change(s, u64::from(*n)))
}
