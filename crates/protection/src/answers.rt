// What an analysis answers.
ghost use Rattle.std.specs.Prelude.{◌≡◌};
ghost use Rattle.protection.specs.Answers.{refusal_values, verdict_of};

use super::numbered::Numbered;
use walk::Ending;

// Whether q can ever be granted: how many states are listed, how many moves were tried, the
// ending one counted, and for a leak how many moves of the witness lead to a grant of q. A type
// beside `walk::Ending`, which knows no permissions: `From` leads from the one to the other.
#[derive(Clone, Copy)]
pub enum Verdict {
    Leak { found: u32, tried: u64, length: u32 },
    Never { found: u32, tried: u64 },
}

// Why an analysis is refused.
#[derive(Clone, Copy)]
pub enum Refusal {
    // q is out of the system's counts
    OutOfCounts,
    // a table has fewer entries than the system has states
    ShortTable,
}

impl Numbered for Refusal {
    ghost values = { refusal_values };

    fn number(self) -> u32
        ensures { result ≡ (refusal_values self).number }
    {
        match self {
            Refusal::OutOfCounts => 30,
            Refusal::ShortTable => 31,
        }
    }
}

// A search that an enabled move labelled q ended is a leak.
impl From<Ending> for Verdict {
    ghost from_gives = { λ ending verdict. verdict ≡ verdict_of ending };

    fn from(ending: Ending) -> Self {
        match ending {
            Ending::Stopped {
                found,
                tried,
                length,
            } => Verdict::Leak {
                found,
                tried,
                length,
            },
            Ending::Exhausted { found, tried } => Verdict::Never { found, tried },
        }
    }
}
