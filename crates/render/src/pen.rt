// What a viewer's terminal is set to.
ghost use Rattle.std.specs.Prelude.{◌≡◌, ◌<◌, ◌&&◌, ◌==◌};
ghost use Rattle.render.specs.Pens.{fresh_pen, rendition_of, is_at, pen_after};

use grid::cell::Rendition;
use grid::size::Place;

// `pending` is a pending wrap; `visible` says whether the cursor is.
#[derive(Clone, Copy)]
pub struct Pen {
    pub row: usize,
    pub col: usize,
    pub pending: bool,
    pub rendition: Rendition,
    pub visible: bool,
}

impl Pen {
    // As a terminal comes up.
    pub fn fresh() -> Pen
        ensures { result ≡ fresh_pen }
    {
        Pen {
            row: 0,
            col: 0,
            pending: false,
            rendition: Rendition::PLAIN,
            visible: true,
        }
    }

    // Is the cursor there? A wrap that is pending does not move it.
    pub(crate) fn stands_at(self, place: Place) -> bool
        ensures { result ≡ (self.row == place.row && self.col == place.col) }
    {
        self.row == place.row && self.col == place.col
    }

    // Would a character go to this place?
    pub(crate) fn is_at(self, place: Place) -> bool
        ensures { result ≡ is_at self place.row place.col }
    {
        !self.pending && self.stands_at(place)
    }

    // Set as it is after the character of this number at a place.
    pub(crate) fn after(self, wide: usize, place: Place, p: u64) -> Pen
        requires { place.col < wide }
        ensures { result ≡ pen_after wide self place.row place.col (rendition_of p) }
    {
        let Place { row, col } = place;
        let last = col + 1 == wide;
        Pen {
            row,
            col: if last { col } else { col + 1 },
            pending: last,
            rendition: Rendition::from(p),
            visible: self.visible,
        }
    }
}
