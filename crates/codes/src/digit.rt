// One attribute in a code: a code that is not 0 is 1 more than a sum of parts, each times a weight.
ghost use Rattle.std.specs.Prelude.{◌≡◌, ◌+◌, ◌/◌, ◌%◌, ◌<◌};
ghost use Rattle.scheme.specs.WellFormed.{value_fits};
ghost use Rattle.codes.specs.Codes.{part, from_part};
ghost use Rattle.codes.specs.Divisors.{number_of};

use crate::divisor::Divisor;
use scheme::entries::value_fits;

// The size of the attribute, how many parts it has, and what part 1 of it counts for.
#[derive(Clone, Copy)]
pub(crate) struct Digit {
    pub(crate) size: u8,
    parts: Divisor,
    pub(crate) weight: Divisor,
    ghost byte: { size < 256 },
    ghost with_null: { number_of parts ≡ size + 1 },
}

// 0 for null, v + 1 for the value v.
pub(crate) fn part_of(value: Option<u8>) -> u32
    ensures { result ≡ part value }
{
    value.map_or(0, |v| v as u32 + 1)
}

// The value of a part.
pub(crate) fn value_of(part: u32) -> Option<u8>
    requires { part < 257 }
    ensures { result ≡ from_part part }
{
    part.checked_sub(1).map(|v| v as u8)
}

impl Digit {
    pub(crate) fn new(size: u8, weight: u32) -> Digit
        requires { 0 < weight }
        ensures size { result.size ≡ size }
        ensures weight { number_of result.weight ≡ weight }
    {
        Digit {
            size,
            parts: Divisor::of(size as u32 + 1).unwrap(),
            weight: Divisor::of(weight).unwrap(),
        }
    }

    // Null, or a value below the size.
    pub(crate) fn fits(&self, value: Option<u8>) -> bool
        ensures { result ≡ value_fits self.now.size value }
    {
        value_fits(self.size, value)
    }

    // Its part in a sum.
    pub(crate) fn part_in(&self, sum: u32) -> u32
        ensures value { result ≡ sum / number_of self.now.weight % (self.now.size + 1) }
        ensures small { result < 257 }
    {
        self.parts.rest(self.weight.divide(sum))
    }
}
