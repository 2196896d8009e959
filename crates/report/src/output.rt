// All that is printed of a text.
ghost use Rattle.std.specs.Prelude.{◌≡◌, Ok, List, ℕ};
ghost use Rattle.scheme.specs.Models.{SchemeModel};
ghost use Rattle.text.specs.Reading.{reading};
ghost use Rattle.render.specs.Appended.{Appended};
ghost use Rattle.report.specs.Reports.{annex_output};
ghost use Rattle.report.specs.Printed.{PrintedKept};
ghost use Rattle.report.specs.Readings.{ReadOneWay};

use crate::refusal::put_refusal;
use crate::whole::put_report;
use record::Scheme;
use std::alloc::AllocError;
use text::read::read;

// Appends the report of a text, or its refusal. Want of memory is the only other answer, and it can
// come only where the bytes had no room. `every_printed_answer_is_kept`: the bytes are a line with the two counts
// and then an answer to each query, in their order, by the names that the query's line has; every verdict and every
// move that is printed is kept by all histories of the monitors of the text's scheme. `read_one_way`: no other
// verdict and no other moves can be read out of it.
pub fn annex(out: &mut Vec<u8>, text: &[u8]) -> Result<(), AllocError>
    ensures report { Appended result out.old out.new (annex_output text.now) }
    ensures every_printed_answer_is_kept { (printed : List ℕ)
        × Appended result out.old out.new printed × PrintedKept (reading text.now) printed }
    ensures read_one_way { (m : SchemeModel) → reading text.now ≡ Ok m → ReadOneWay m }
{
    let mut scheme = Scheme::bare();
    match read(&mut scheme, text) {
        Ok(()) => put_report(out, &scheme, scheme.draft()),
        Err(fault) => put_refusal(out, fault.report()),
    }
}
