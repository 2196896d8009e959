// The lines of a whole report: the counts of states and of moves, then the answer to each query.
ghost use Rattle.std.specs.List.{flat_map};
ghost use Rattle.scheme.specs.Drafts.{draft_of};
ghost use Rattle.protection.specs.Meaning.{meaning};
ghost use Rattle.render.specs.Appended.{Appended};
ghost use Rattle.report.specs.Answers.{answer_lines};
ghost use Rattle.report.specs.Reports.{scheme_line, report_lines};

use crate::answers::{Asked, ENTRIES};
use protection::System;
use render::{Word, put_line};
use scheme::draft::Draft;
use std::alloc::AllocError;
use walk::Found;

// `out` is the place to write to, as `f` is in a `Display`, and stands beside what is written: no struct has
// both.
fn put_counts<S: System>(out: &mut Vec<u8>, system: &S) -> Result<(), AllocError>
    ensures { Appended result out.old out.new (scheme_line (meaning S.Walk S.System.own system.now)) }
{
    let states = system.states() as u64;
    let moves = system.moves() as u64;
    put_line(out, b"scheme", &[Word::Number(states), Word::Number(moves)])
}

// The answer to each query, with the same three tables for all.
fn put_answers<S: System>(out: &mut Vec<u8>, system: &S, draft: &Draft) -> Result<(), AllocError>
    ensures { Appended result out.old out.new (flat_map (answer_lines (draft_of draft.now) (meaning S.Walk S.System.own system.now)) (draft_of draft.now).queries) }
{
    // three tables, and no struct of them: so large a value would be copied into its place
    let nothing = Found {
        state: 0,
        parent: 0,
        mv: 0,
    };
    let mut marks = [0; ENTRIES];
    let mut found = [nothing; ENTRIES];
    let mut witness = [0; ENTRIES];
    let queries = draft.queries();
    for query in queries {
        let asked = Asked {
            draft,
            query: *query,
        };
        asked.put_answer(out, system, &mut marks, &mut found, &mut witness)?;
    }
    Ok(())
}

// All that is reported of a system whose names and queries a draft has.
pub fn put_report<S: System>(out: &mut Vec<u8>, system: &S, draft: &Draft) -> Result<(), AllocError>
    ensures { Appended result out.old out.new (report_lines (draft_of draft.now) (meaning S.Walk S.System.own system.now)) }
{
    put_counts(out, system)?;
    put_answers(out, system, draft)
}
