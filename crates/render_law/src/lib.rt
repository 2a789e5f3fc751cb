// What the layers above may use of drawing, whatever way the bytes are chosen: the writer's law, and that every screen can be drawn.
#![tactic(auto)]

ghost use Rattle.meaning.specs.Laws.{Drawn};
ghost use Rattle.render_law.specs.Law.{WriterLaw};

// Each go tells the viewer's terminal just what it is then modelled to show, in at most 32 bytes a cell, and gets on while something differs.
pub fn writer_law_stands() -> u8
    ensures { WriterLaw }
{
    0
}

// Every screen up to 200 x 60 that can be drawn can be written on a fresh one, within the bytes granted for the cells that differ.
pub fn drawn_stands() -> u8
    ensures { Drawn }
{
    0
}
