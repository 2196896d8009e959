// What is asked of a ticket: whether a permission can ever be granted, and rides on a monitor.
ghost use Rattle.std.specs.Prelude.{◌≡◌, ◌≤◌, [], ◌∷◌, ◌++◌, List, length, min, replicate, take};
ghost use Rattle.protection.specs.declared.answers.Verdict.TheVariants.{Leak, Never};
ghost use Rattle.protection.specs.Answers.{told};
ghost use Rattle.protection.specs.Analysis.{analysis_answer, witness_left};
ghost use Rattle.protection.specs.Histories.{Call, Contains, EndsInGrant, history_grants};
ghost use Rattle.protection.specs.Safety.{Replays};
ghost use Rattle.ticket.specs.Ticket.{ticket};
ghost use Rattle.ticket.specs.Questions.{Promised};

use crate::moves::{PAY_BACK, RENEW, STAMP, STATES};
use crate::ticket::Ticket;
use monitor::Monitor;
use protection::{Permission, Refusal, Verdict, analyse};
use walk::Found;

// Whether a permission can ever be granted on a ticket: with an entry for each state in every table.
fn analysed(q: Permission, witness: &mut [u32; STATES]) -> Result<Verdict, Refusal>
    ensures answer { told result ≡ analysis_answer ticket q 22 22 22 }
    ensures witness { witness.new ≡ witness_left ticket q result witness.old }
    ensures promised { Promised q result witness.new }
{
    let nothing = Found {
        state: 0,
        parent: 0,
        mv: 0,
    };
    let mut marks = [0; STATES];
    let mut found = [nothing; STATES];
    analyse(&Ticket, q, &mut marks, &mut found, witness)
}

// Whether the office can come to renew a ticket: it can, once the rider has stamped it ten times and
// given it back. The witness begins with these moves, which a new monitor grants, and no way is shorter.
pub fn renewal(witness: &mut [u32; STATES]) -> Result<Verdict, Refusal>
    ensures leaks { result ≡ Ok (Leak 12 47 12) }
    ensures way { take 12 witness.new ≡ replicate 10 0 ++ 1 ∷ 2 ∷ [] }
    ensures granted { Replays ticket RENEW (take 12 witness.new) }
    ensures shortest { (calls : List Call) → EndsInGrant ticket RENEW calls
        → 12 ≤ length (history_grants ticket calls) }
{
    analysed(RENEW, witness)
}

// Whether the office can come to pay for rides that are left on a ticket: it never can, whatever is
// asked of a monitor, in whatever order.
pub fn payment() -> Result<Verdict, Refusal>
    ensures never { result ≡ Ok (Never 12 48) }
    ensures never_granted { (calls : List Call) → ¬ Contains ticket PAY_BACK calls }
{
    analysed(PAY_BACK, &mut [0; STATES])
}

// Asks a monitor for so many rides on a new ticket, and answers how many it grants: the eleventh it
// refuses.
pub fn rides(wanted: u32) -> u32
    ensures { result ≡ min wanted 10 }
{
    let mut monitor = Monitor::new(Ticket);
    let mut granted = 0;
    for _ in 0..wanted {
        if monitor.request(STAMP).is_ok() {
            granted += 1;
        }
    }
    granted
}
