// The analysis of any protection system.
ghost use Rattle.std.specs.Prelude.{◌≡◌, length};
ghost use Rattle.protection.specs.Permissions.{has_label};
ghost use Rattle.protection.specs.Systems.{within_counts};
ghost use Rattle.protection.specs.Meaning.{meaning};
ghost use Rattle.protection.specs.Answers.{told};
ghost use Rattle.protection.specs.Analysis.{analysis_answer, marks_left, found_left, witness_left};
ghost use Rattle.protection.specs.Safety.{Promise};
ghost use Rattle.protection.specs.Verdicts.{Refuses, VisitsFor};
ghost use Rattle.walk.specs.Written.{tables};

use super::answers::{Refusal, Verdict};
use super::interface::System;
use super::permission::Permission;
use walk::{Found, Goal, search};

// Stops at a move labelled q.
#[derive(Drop)]
struct LabelledBy<'a, S> {
    system: &'a S,
    q: Permission,
}

impl<'a, S: System> Goal for LabelledBy<'a, S> {
    ghost stops = { λ goal mv. has_label ((S.System.labels goal.system.now).label mv) goal.q };

    fn is_met(&self, mv: u32) -> bool {
        self.system.label(mv) == Some(self.q)
    }
}

// Whether a permission is within a system's counts.
pub fn in_counts<S: System>(system: &S, p: Permission) -> bool
    ensures { result ≡ within_counts (meaning S.Walk S.System.own system.now) p }
{
    p.is_within(system.objects(), system.rights())
}

// Says whether q can ever be granted, with a shortest way to such a grant.
pub fn analyse<S: System>(
    system: &S,
    q: Permission,
    marks: &mut [u32],
    found: &mut [Found],
    witness: &mut [u32],
) -> Result<Verdict, Refusal>
    ensures answer { told result ≡ analysis_answer (meaning S.Walk S.System.own system.now) q (length marks.old) (length found.old) (length witness.old) }
    ensures marks { marks.new ≡ marks_left (meaning S.Walk S.System.own system.now) q result marks.old }
    ensures found { found.new ≡ found_left (meaning S.Walk S.System.own system.now) q result found.old }
    ensures witness { witness.new ≡ witness_left (meaning S.Walk S.System.own system.now) q result witness.old }
    ensures safety { Promise (meaning S.Walk S.System.own system.now) q result found.new witness.new }
    ensures refused { Refuses (S.Walk.model system.now) (S.System.labels system.now) q (told result)
        (tables marks.old found.old witness.old) }
    ensures visits { VisitsFor (S.Walk.model system.now) (S.System.labels system.now) q result
        (tables marks.old found.old witness.old) (tables marks.new found.new witness.new) }
{
    if !in_counts(system, q) {
        return Err(Refusal::OutOfCounts);
    }
    let goal = LabelledBy { system, q };
    let ending = search(system, &goal, marks, found, witness).ok_or(Refusal::ShortTable)?;
    Ok(ending.into())
}
