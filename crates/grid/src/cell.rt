// A cell and its number. Every number is a cell, so memory needs no test before it is read.
ghost use Rattle.std.specs.Prelude.{◌≡◌};
ghost use Rattle.grid.specs.Cells.{packed, unpacked, cell_of, unsigned, style_of};

#[derive(Clone, Copy, PartialEq, Eq)]
pub struct Rendition {
    pub marks: u16,
    pub fore: u8,
    pub back: u8,
}

impl Rendition {
    // No marks, and both colours the terminal's own.
    pub const PLAIN: Rendition = Rendition {
        marks: 0,
        fore: 9,
        back: 9,
    };
}

#[derive(Clone, Copy, PartialEq, Eq)]
pub struct Glyph {
    pub sign: u32,
    pub rendition: Rendition,
}

// A blank in the default rendition.
pub const BLANK: u64 = 0x0909_0000_0000_0020;

impl From<Glyph> for u64 {
    ghost from_gives = { λ g n. (n ≡ packed (cell_of g)) × (unpacked n ≡ cell_of g) };

    fn from(g: Glyph) -> u64 {
        let style = g.rendition;
        (((style.back as u64) << 8 | style.fore as u64) << 16 | style.marks as u64) << 32
            | g.sign as u64
    }
}

impl From<u64> for Glyph {
    ghost from_gives = { λ n g. cell_of g ≡ unpacked n };

    fn from(n: u64) -> Glyph {
        Glyph {
            sign: (n & 0xffff_ffff) as u32,
            rendition: Rendition {
                marks: (n >> 32 & 0xffff) as u16,
                fore: (n >> 48 & 0xff) as u8,
                back: (n >> 56) as u8,
            },
        }
    }
}

// The number of a rendition is that of a cell without a sign.
impl From<Rendition> for u64 {
    ghost from_gives = { λ r n. n ≡ packed (unsigned (style_of r)) };

    fn from(rendition: Rendition) -> u64 {
        u64::from(Glyph { sign: 0, rendition })
    }
}

impl From<u64> for Rendition {
    ghost from_gives = { λ n r. style_of r ≡ (unpacked n).style };

    fn from(n: u64) -> Rendition {
        Glyph::from(n).rendition
    }
}
