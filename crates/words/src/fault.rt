// What can be wrong with the words of a text, and what is told of any fault.
use crate::position::Spot;

#[derive(Clone, Copy)]
pub enum WordFault {
    // A text above 65,535 bytes.
    LongText,
    // A byte other than 10 and 32 to 126.
    Byte(Spot),
    // A word above 17 bytes.
    LongWord(Spot),
}

// A refusal's number, line and place, side by side as they are printed; no `Spot`, since a refusal of no
// place has 0 and 0.
#[derive(Clone, Copy, Debug, PartialEq, Eq)]
pub struct Report {
    pub number: u32,
    pub line: usize,
    pub place: usize,
}

mod reports;
