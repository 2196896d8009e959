// Cuts a text into lines and a line into words: what is still to come of each.
ghost use Rattle.std.specs.Prelude.{◌+◌, ◌^◌, ◌<◌, length};

use crate::position::Spot;

// The lines of a text that are still to come.
#[derive(Clone, Copy)]
pub struct Lines<'a> {
    rest: &'a [u8],
    number: usize,
    ghost fits: { number + length rest.now < 2 ^ 64 },
}

// The words of a line that are still to come: those of its bytes from a spot on.
#[derive(Clone, Copy)]
pub struct Words<'a> {
    rest: &'a [u8],
    spot: Spot,
    ghost fits: { spot.place + length rest.now < 2 ^ 64 },
}

mod of_line;
mod of_text;
mod pieces;
