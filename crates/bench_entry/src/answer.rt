// What an analysis answers, in numbers that C reads.
ghost use Rattle.std.specs.Prelude.{◌≡◌};
ghost use Rattle.protection.specs.Answers.{verdict_values};
ghost use Rattle.bench_entry.specs.Answers.{answer_of};

use protection::Verdict;

#[repr(C)]
#[derive(Clone, Copy)]
pub struct Answer {
    // 1 for leak, 0 for never
    pub leak: u32,
    // how many states are listed
    pub found: u32,
    // how many moves were tried, the ending one counted
    pub tried: u64,
    // how many moves of the witness were written
    pub length: u32,
}

impl From<Verdict> for Answer {
    ghost from_gives = { λ verdict answer. answer ≡ answer_of (verdict_values verdict) };

    fn from(verdict: Verdict) -> Answer {
        match verdict {
            Verdict::Leak {
                found,
                tried,
                length,
            } => Answer {
                leak: 1,
                found,
                tried,
                length,
            },
            Verdict::Never { found, tried } => Answer {
                leak: 0,
                found,
                tried,
                length: 0,
            },
        }
    }
}
