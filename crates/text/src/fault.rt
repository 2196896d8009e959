// What can be wrong with a scheme. A fault of a line is carried whole, and in it a fault of its words.
ghost use Rattle.std.specs.Prelude.{◌≡◌};
ghost use Rattle.text.specs.declared.fault.SchemeFault.TheVariants.{OfLine};

use lines::fault::LineFault;
use words::position::Spot;

#[derive(Clone, Copy)]
pub enum SchemeFault {
    OfLine(LineFault),
    // A name already used in its kind.
    Used(Spot),
    // A name that is not declared above.
    Undefined(Spot),
    // A size not from 1 to 250, or a value not below its attribute's size.
    Range(Spot),
    // More lines of a kind than the most.
    Most(Spot),
    // No attribute, right or object in the whole text.
    Missing(Spot),
    // More states than a scheme may have.
    States(Spot),
}

impl From<LineFault> for SchemeFault {
    ghost from_gives = { λ l r. r ≡ OfLine l };

    fn from(fault: LineFault) -> SchemeFault {
        SchemeFault::OfLine(fault)
    }
}

mod reports;
