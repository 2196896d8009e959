// Worked examples of what the documents say, by subject, as one statement about the definitions; and
// texts too long to stand in a file of cases.
#![tactic(auto)]

ghost use Rattle.render.specs.Appended.{Appended};
ghost use Rattle.worked_examples.specs.Texts.{meter_report};
ghost use Rattle.worked_examples.specs.Examples.{WorkedExamples};

use report::annex;
use std::alloc::AllocError;

// Appends the report of the meter's text. `examples`: all worked examples hold.
pub fn put_meter_report(out: &mut Vec<u8>) -> Result<(), AllocError>
    ensures report { Appended result out.old out.new meter_report }
    ensures examples { WorkedExamples }
{
    let text =
        b"attr role 2\nattr left 3\nright drive\nright load\nobject ann 0 -\nobject m1 - 1\npolicy drive drive\nif s.role = 0\nif o.left > 0\ndo o.left sub 1\npolicy refill load\nif s.role = 0\nif o.left = 0\ndo o.left add 2\nquery ann m1 load\nquery m1 ann load\n";
    annex(out, text)
}

#[cfg(test)]
mod tests;
