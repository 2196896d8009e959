// A number to divide by, kept with what makes one multiplication of each division: most of an analysis is
// divisions by the same few numbers, and a division takes many times as long.
//
// Let m be (2^64 - 1) / by. Then m * by is at most 2^64 - 1, so (n + 1) * m stays below
// (n / by + 1) * 2^64; and it is at least 2^64 - by, so (n + 1) * m reaches n / by * 2^64 as long as
// (n + 1) * by is at most 2^64, which it is for numbers of 32 bits.
ghost use Rattle.std.specs.Prelude.{◌≡◌, ◌-◌, ◌/◌, ◌%◌, ◌^◌, ◌<◌, if◌then◌else◌, Some, None, nat_eq};
ghost use Rattle.std.specs.Option.{option_map};

#[derive(Clone, Copy)]
pub struct Divisor {
    by: u32,
    multiple: u64,
    ghost some: { 0 < by },
    ghost greatest: { multiple ≡ (2 ^ 64 - 1) / by },
}

impl Divisor {
    ghost use Rattle.codes.specs.Divisors.{number_of};

    // None for 0, by which nothing is divided.
    pub fn of(by: u32) -> Option<Divisor>
        ensures { option_map number_of result ≡ (if nat_eq by 0 then None else Some by) }
    {
        if by == 0 {
            return None;
        }
        Some(Divisor {
            by,
            multiple: u64::MAX / by as u64,
        })
    }

    pub fn number(self) -> u32
        ensures { result ≡ number_of self }
    {
        self.by
    }

    #[tactic(auto, using(crate::proofs::Dividing::quotient))]
    pub fn divide(self, n: u32) -> u32
        ensures { result ≡ n / number_of self }
    {
        (((n as u128 + 1) * self.multiple as u128) >> 64) as u32
    }

    // What is left of a number.
    pub fn rest(self, n: u32) -> u32
        ensures { result ≡ n % number_of self }
    {
        n - self.divide(n) * self.number()
    }
}
