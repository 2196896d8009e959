// The line that tells a refusal.
ghost use Rattle.std.specs.Prelude.{◌≡◌};
ghost use Rattle.render.specs.Appended.{Appended};
ghost use Rattle.report.specs.Answers.{refused_line};
ghost use Rattle.report.specs.Readings.{Numbered};

use render::{Word, put_line};
use std::alloc::AllocError;
use words::fault::Report;

// Number, line and place of a refusal. Appended, and no `Display`: the contract says when memory can be
// wanting, which `write!` does not. `read_one_way`: no other refusal has the same line.
pub fn put_refusal(out: &mut Vec<u8>, report: Report) -> Result<(), AllocError>
    ensures line { Appended result out.old out.new (refused_line report) }
    ensures read_one_way { (other : Report) → Numbered other → refused_line other ≡ refused_line report → other ≡ report }
{
    put_line(
        out,
        b"refused",
        &[
            Word::Number(report.number as u64),
            Word::Number(report.line as u64),
            Word::Number(report.place as u64),
        ],
    )
}
