// What can be wrong with a line by itself. A fault of its words is carried whole.
ghost use Rattle.std.specs.Prelude.{◌≡◌};
ghost use Rattle.lines.specs.declared.fault.LineFault.TheVariants.{OfWords};

use words::fault::WordFault;
use words::position::Spot;

#[derive(Clone, Copy)]
pub enum LineFault {
    OfWords(WordFault),
    // An unknown first word, or a line out of order.
    Kind(Spot),
    // A wrong count of words.
    Count(Spot),
    // A word of a form not allowed there.
    Form(Spot),
}

impl From<WordFault> for LineFault {
    ghost from_gives = { λ w r. r ≡ OfWords w };

    fn from(fault: WordFault) -> LineFault {
        LineFault::OfWords(fault)
    }
}

mod reports;
