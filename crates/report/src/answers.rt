// The lines that answer a query.
ghost use Rattle.std.specs.Prelude.{◌≡◌, ◌≤◌, length, take, Ok};
ghost use Rattle.scheme.specs.Drafts.{draft_of};
ghost use Rattle.protection.specs.Meaning.{meaning};
ghost use Rattle.protection.specs.Answers.{verdict_values};
ghost use Rattle.render.specs.Appended.{Appended};
ghost use Rattle.report.specs.Answers.{query_line, verdict_line, outcome_lines, answer_lines};

use crate::moves::put_moves;
use crate::names::name_of;
use crate::refusal::put_refusal;
use monitor::confirm;
use protection::{Numbered, System, Verdict};
use record::permission_asked;
use render::{Word, put_line};
use scheme::draft::Draft;
use scheme::entries::Query;
use scheme::kind::Kind;
use std::alloc::AllocError;
use walk::Found;
use words::fault::Report;

// The entries of each table of an analysis.
pub(crate) const ENTRIES: usize = 4096;

// A query, and the draft that has the names for its numbers.
#[derive(Clone, Copy)]
pub(crate) struct Asked<'a> {
    pub(crate) draft: &'a Draft,
    pub(crate) query: Query,
}

// The moves of the witness, with which a table begins; none under never.
fn witness_in(table: &[u32], verdict: Verdict) -> &[u32]
    requires { (verdict_values verdict).length ≤ length table.now }
    ensures { result.now ≡ take (verdict_values verdict).length table.now }
{
    match verdict {
        Verdict::Leak { length, .. } => &table[..length as usize],
        Verdict::Never { .. } => &[],
    }
}

impl Asked<'_> {
    // A word with the names of the query, and the counts of states found and of moves tried.
    fn put_query(
        self,
        out: &mut Vec<u8>,
        word: &[u8],
        found: u32,
        tried: u64,
    ) -> Result<(), AllocError>
        ensures { Appended result out.old out.new (query_line word.now (draft_of self.entry.draft.now) self.entry.query found tried) }
    {
        let subject = name_of(self.draft, Kind::Object, self.query.subject);
        let object = name_of(self.draft, Kind::Object, self.query.object);
        let right = name_of(self.draft, Kind::Right, self.query.right);
        put_line(
            out,
            word,
            &[
                Word::Text(subject),
                Word::Text(object),
                Word::Text(right),
                Word::Number(found as u64),
                Word::Number(tried),
            ],
        )
    }

    fn put_verdict(self, out: &mut Vec<u8>, verdict: Verdict) -> Result<(), AllocError>
        ensures { Appended result out.old out.new (verdict_line (draft_of self.entry.draft.now) self.entry.query (verdict_values verdict)) }
    {
        match verdict {
            Verdict::Leak { found, tried, .. } => self.put_query(out, b"leak", found, tried),
            Verdict::Never { found, tried } => self.put_query(out, b"never", found, tried),
        }
    }

    // A verdict, and below it the moves of the witness, with which a table begins.
    fn put_evidence(
        self,
        out: &mut Vec<u8>,
        verdict: Verdict,
        table: &[u32],
    ) -> Result<(), AllocError>
        requires { (verdict_values verdict).length ≤ length table.now }
        ensures { Appended result out.old out.new (outcome_lines (draft_of self.entry.draft.now) self.entry.query (Ok (verdict_values verdict)) (take (verdict_values verdict).length table.now)) }
    {
        self.put_verdict(out, verdict)?;
        put_moves(out, self.draft, witness_in(table, verdict))
    }

    // Analyses the query with three tables, whatever they hold, and has a monitor replay the witness of a leak.
    pub(crate) fn put_answer<S: System>(
        self,
        out: &mut Vec<u8>,
        system: &S,
        marks: &mut [u32; ENTRIES],
        found: &mut [Found; ENTRIES],
        witness: &mut [u32; ENTRIES],
    ) -> Result<(), AllocError>
        ensures { Appended result out.old out.new (answer_lines (draft_of self.entry.draft.now) (meaning S.Walk S.System.own system.now) self.entry.query) }
    {
        let q = permission_asked(self.query);
        match confirm(system, q, marks, found, witness) {
            Ok(verdict) => self.put_evidence(out, verdict, witness),
            Err(refusal) => put_refusal(
                out,
                Report {
                    number: refusal.number(),
                    line: 0,
                    place: 0,
                },
            ),
        }
    }
}
