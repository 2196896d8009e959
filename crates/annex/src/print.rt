// The report of all that a reader has, printed to a writer.
ghost use Rattle.std.specs.Prelude.{◌≡◌, ℕ, List, Ok, Err, IfSome, OnOk};
ghost use Rattle.std.specs.Io.KnownBytes.{Appends};
ghost use Rattle.text.specs.Reading.{reading};
ghost use Rattle.report.specs.Reports.{annex_output};
ghost use Rattle.report.specs.Printed.{PrintedKept};

use crate::failure::Failure;
use input::read_up_to;
use report::annex;
use std::alloc::Global;
use std::io::{Read, Write};

// One byte more than the longest text: enough to know that a text is too long. A buffer of fixed length,
// which needs no memory.
const ENOUGH: usize = 65_536;

// Prints the report of all that the input has left, however long that is. `report`: the output grows by it, and by
// nothing else. `every_printed_answer_is_kept`: what it grows by says what `report::annex` promises of its bytes.
pub fn print_report<R: Read, W: Write>(
    input: &mut R,
    output: &mut W,
    alloc: Global,
) -> Result<(), Failure>
    ensures report { OnOk result (IfSome (R.remaining input.old)
        (λ left. Appends (W.contents output.old) (W.contents output.new) (annex_output left))) }
    ensures every_printed_answer_is_kept { OnOk result (IfSome (R.remaining input.old)
        (λ left. (printed : List ℕ)
        × Appends (W.contents output.old) (W.contents output.new) printed
        × PrintedKept (reading left) printed)) }
{
    let mut buffer = [0u8; ENOUGH];
    let text = read_up_to(input, &mut buffer).map_err(Failure::Input)?;
    let mut report = Vec::new(alloc);
    annex(&mut report, text)?;
    output.write_all(report.as_slice()).map_err(Failure::Output)
}
