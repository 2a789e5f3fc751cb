// The definitions that a reader must believe (specs/), and the laws about them, each as the contract of a small function.
#![tactic(auto)]

mod answer;

ghost use Rattle.meaning.specs.Laws.{InParts, Restored, OnAndBack, KeysGo, PictureLarge, Shared, StaysGood, StaysDrawable};

pub use answer::{Refusal, Told};

// Bytes can be written in two parts, cut anywhere.
pub fn in_parts_stands() -> u8
    ensures { InParts }
{
    0
}

// Restoring brings back what was saved.
pub fn restored_stands() -> u8
    ensures { Restored }
{
    0
}

// A row down and a row up is where the cursor was.
pub fn on_and_back_stands() -> u8
    ensures { OnAndBack }
{
    0
}

// Keys but the prefix go to the pane with the focus.
pub fn keys_go_stands() -> u8
    ensures { KeysGo }
{
    0
}

// The picture has as many rows as the screen.
pub fn picture_large_stands() -> u8
    ensures { PictureLarge }
{
    0
}

// The places of a layout don't overlap and don't stick out.
pub fn shared_stands() -> u8
    ensures { Shared }
{
    0
}

// A screen keeps its size whatever byte is written, and its cursor stays on it.
pub fn stays_good_stands() -> u8
    ensures { StaysGood }
{
    0
}

// Whatever is written on a screen that can be drawn leaves one that can be drawn.
pub fn stays_drawable_stands() -> u8
    ensures { StaysDrawable }
{
    0
}
