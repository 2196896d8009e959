// The evidence for a leak: a new monitor that grants its witness.
ghost use Rattle.std.specs.Prelude.{◌≡◌, true, length, is_ok};
ghost use Rattle.protection.specs.Meaning.{meaning};
ghost use Rattle.protection.specs.Answers.{told};
ghost use Rattle.protection.specs.Analysis.{analysis_answer, marks_left, found_left, witness_left};
ghost use Rattle.protection.specs.Safety.{Replays, Promise};
ghost use Rattle.protection.specs.Verdicts.{Refuses, VisitsFor};
ghost use Rattle.walk.specs.Written.{tables};
ghost use Rattle.monitor.specs.Replays.{replay_answer};

use super::Monitor;
use protection::{Permission, Refusal, System, Verdict, analyse};
use walk::Found;

// Whether a new monitor grants all the moves in turn: it grants the witness of every leak.
pub fn replays<S: System>(system: &S, moves: &[u32]) -> bool
    ensures value { result ≡ is_ok (replay_answer (meaning S.Walk S.System.own system.now) (meaning S.Walk S.System.own system.now).walk.start moves.now) }
    ensures witness { (q : Permission) → Replays (meaning S.Walk S.System.own system.now) q moves.now → result ≡ true }
{
    let mut monitor = Monitor::new(system);
    monitor.replay(moves).is_ok()
}

// Analyses, and at a leak has a new monitor replay the witness: the proof shows that it grants it.
pub fn confirm<S: System>(
    system: &S,
    q: Permission,
    marks: &mut [u32],
    found: &mut [Found],
    witness: &mut [u32],
) -> Result<Verdict, Refusal>
    ensures answer { told result ≡ analysis_answer (meaning S.Walk S.System.own system.now) q (length marks.old) (length found.old) (length witness.old) }
    ensures marks { marks.new ≡ marks_left (meaning S.Walk S.System.own system.now) q result marks.old }
    ensures found { found.new ≡ found_left (meaning S.Walk S.System.own system.now) q result found.old }
    ensures witness { witness.new ≡ witness_left (meaning S.Walk S.System.own system.now) q result witness.old }
    ensures safety { Promise (meaning S.Walk S.System.own system.now) q result found.new witness.new }
    ensures refused { Refuses (S.Walk.model system.now) (S.System.labels system.now) q (told result)
        (tables marks.old found.old witness.old) }
    ensures visits { VisitsFor (S.Walk.model system.now) (S.System.labels system.now) q result
        (tables marks.old found.old witness.old) (tables marks.new found.new witness.new) }
{
    let verdict = analyse(system, q, marks, found, witness)?;
    if let Verdict::Leak { length, .. } = verdict {
        if !replays(system, &witness[..length as usize]) {
            unreachable()
        }
    }
    Ok(verdict)
}
