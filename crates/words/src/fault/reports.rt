// Number, line and place of each fault of the words.
ghost use Rattle.std.specs.Prelude.{◌≡◌};
ghost use Rattle.words.specs.Faults.{at as report_at, word_report};

use super::{Report, WordFault};
use crate::position::Spot;

impl Report {
    pub fn at(number: u32, spot: Spot) -> Report
        ensures { result ≡ report_at number spot }
    {
        Report {
            number,
            line: spot.line,
            place: spot.place,
        }
    }
}

impl WordFault {
    pub fn report(self) -> Report
        ensures { result ≡ word_report self }
    {
        match self {
            WordFault::LongText => Report {
                number: 4,
                line: 0,
                place: 0,
            },
            WordFault::Byte(spot) => Report::at(1, spot),
            WordFault::LongWord(spot) => Report::at(2, spot),
        }
    }
}
