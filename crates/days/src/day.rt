// A whole day, line by line.
ghost use Rattle.days.specs.Day.{DayRead, Kept};
ghost use Rattle.days.specs.Line.{line_of};

use crate::fault::{BadDay, Fault};
use crate::line::Line;
use crate::lines::Lines;
use crate::reading::read_line;
use std::alloc::Global;

fn keep(heap: Global, day: &mut Vec<Line>, text: &[u8]) -> Result<(), Fault>
    ensures { Kept result day.old.items day.new.items (line_of text.now) }
{
    day.push(read_line(heap, text)?)?;
    Ok(())
}

// The lines of a day in order, or the first bad one.
pub fn read_day(heap: Global, text: &[u8]) -> Result<Vec<Line>, BadDay>
    ensures { DayRead result text.now }
{
    let mut day = Vec::new(heap);
    for text in Lines(text) {
        let line = day.len() + 1;
        if let Err(fault) = keep(heap, &mut day, text) {
            return Err(BadDay { line, fault });
        }
    }
    Ok(day)
}
