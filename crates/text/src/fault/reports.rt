// Number, line and place of each fault.
ghost use Rattle.std.specs.Prelude.{◌≡◌};
ghost use Rattle.text.specs.Faults.{scheme_report};

use super::SchemeFault;
use words::fault::Report;

impl SchemeFault {
    pub fn report(self) -> Report
        ensures { result ≡ scheme_report self }
    {
        match self {
            SchemeFault::OfLine(fault) => fault.report(),
            SchemeFault::Used(spot) => Report::at(20, spot),
            SchemeFault::Undefined(spot) => Report::at(21, spot),
            SchemeFault::Range(spot) => Report::at(22, spot),
            SchemeFault::Most(spot) => Report::at(23, spot),
            SchemeFault::Missing(spot) => Report::at(24, spot),
            SchemeFault::States(spot) => Report::at(25, spot),
        }
    }
}
