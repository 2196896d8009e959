// The analysis of a text's query, for C to call: bench/ measures it.
#![tactic(auto)]

ghost use Rattle.std.specs.Prelude.{◌≡◌, ◌≤◌, length, Ok};
ghost use Rattle.std.specs.List.{slice_get};
ghost use Rattle.std.specs.Option.{option_map};
ghost use Rattle.protection.specs.Answers.{told};
ghost use Rattle.protection.specs.Meaning.{meaning};
ghost use Rattle.scheme.specs.Models.{SchemeModel};
ghost use Rattle.record.specs.Systems.{permission_asked};
ghost use Rattle.record.specs.Schemes.{scheme_of};
ghost use Rattle.text.specs.Reading.{reading};
ghost use Rattle.bench_entry.specs.Questions.{asked_by, asks, reply, number_of, answer_left, marks_left, found_left, witness_left};

pub mod answer;

use answer::Answer;
use protection::{Numbered, Permission, Refusal, System, Verdict, analyse};
use record::{Scheme, permission_asked};
use text::read::read;
use walk::Found;

// The answer where a text has no such query: the greatest number, which is that of no refusal.
const NO_SUCH_QUERY: u32 = u32::MAX;

// Analyses query number `query` of a text. Answers 0, or the number of the refusal: that of the
// text, that of the analysis, or `NO_SUCH_QUERY`.
#[unsafe(no_mangle)]
pub extern "C" fn bench_analyse(
    text: &[u8],
    query: u32,
    marks: &mut [u32],
    found: &mut [Found],
    witness: &mut [u32],
    answer: &mut Answer,
) -> u32
    ensures number { result ≡ number_of (reply (asked_by text.now query) (length marks.old) (length found.old) (length witness.old)) }
    ensures no_such_query { (m : SchemeModel) → reading text.now ≡ Ok m → length m.queries ≤ query → result ≡ 4294967295 }
    ensures answer { answer.new ≡ answer_left (reply (asked_by text.now query) (length marks.old) (length found.old) (length witness.old)) answer.old }
    ensures marks { marks.new ≡ marks_left (asked_by text.now query) result marks.old }
    ensures found { found.new ≡ found_left (asked_by text.now query) result found.old }
    ensures witness { witness.new ≡ witness_left (asked_by text.now query) result witness.old }
{
    let mut scheme = Scheme::bare();
    if let Err(fault) = read(&mut scheme, text) {
        return fault.report().number;
    }
    let Some(q) = asked(&scheme, query) else {
        return NO_SUCH_QUERY;
    };
    ask(&scheme, q, marks, found, witness, answer)
}

// The permission that a query asks about.
fn asked(scheme: &Scheme, query: u32) -> Option<Permission>
    ensures { result ≡ option_map permission_asked (slice_get (scheme_of scheme.now).queries query) }
{
    let query = scheme.draft().queries().get(query as usize)?;
    Some(permission_asked(*query))
}

// Analyses a permission of any system. Here and in `tell` a number and an answer to write into, and no
// `Result`: what C is told, for any system and any outcome.
fn ask<S: System>(
    system: &S,
    q: Permission,
    marks: &mut [u32],
    found: &mut [Found],
    witness: &mut [u32],
    answer: &mut Answer,
) -> u32
    ensures number { result ≡ number_of (reply (asks (meaning S.Walk S.System.own system.now) q) (length marks.old) (length found.old) (length witness.old)) }
    ensures answer { answer.new ≡ answer_left (reply (asks (meaning S.Walk S.System.own system.now) q) (length marks.old) (length found.old) (length witness.old)) answer.old }
    ensures marks { marks.new ≡ marks_left (asks (meaning S.Walk S.System.own system.now) q) result marks.old }
    ensures found { found.new ≡ found_left (asks (meaning S.Walk S.System.own system.now) q) result found.old }
    ensures witness { witness.new ≡ witness_left (asks (meaning S.Walk S.System.own system.now) q) result witness.old }
{
    tell(analyse(system, q, marks, found, witness), answer)
}

// Writes the answer in numbers, unless it is a refusal; 0, or the number of the refusal.
fn tell(outcome: Result<Verdict, Refusal>, answer: &mut Answer) -> u32
    ensures number { result ≡ number_of (told outcome) }
    ensures answer { answer.new ≡ answer_left (told outcome) answer.old }
{
    match outcome {
        Ok(verdict) => {
            *answer = verdict.into();
            0
        }
        Err(refusal) => refusal.number(),
    }
}
