// Number, line and place of each fault of a line.
ghost use Rattle.std.specs.Prelude.{◌≡◌};
ghost use Rattle.lines.specs.Faults.{line_report};

use super::LineFault;
use words::fault::Report;

impl LineFault {
    pub fn report(self) -> Report
        ensures { result ≡ line_report self }
    {
        match self {
            LineFault::OfWords(fault) => fault.report(),
            LineFault::Kind(spot) => Report::at(10, spot),
            LineFault::Count(spot) => Report::at(11, spot),
            LineFault::Form(spot) => Report::at(12, spot),
        }
    }
}
