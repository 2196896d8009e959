// The attributes with what follows from their sizes for the codes of objects.
ghost use Rattle.std.specs.Prelude.{◌≡◌, ℕ, ◌<◌, ◌≤◌, slice_index};
ghost use Rattle.bounded.specs.Items.{items};
ghost use Rattle.scheme.specs.Sizes.{size_states};
ghost use Rattle.codes.specs.Divisors.{number_of};
ghost use Rattle.codes.specs.Weights.{digit_sizes, Weighed};

use crate::digit::Digit;
use crate::divisor::Divisor;
use bounded::Bounded;

// The most states that a scheme may have, and the most codes of one object.
pub const MAX_STATES: u32 = 1_048_576;

#[derive(Clone, Copy)]
pub struct Codes {
    digits: Bounded<Digit, 4>,
    // How many codes there are.
    radix: Divisor,
    ghost bytes: { (a : ℕ) → slice_index (digit_sizes (items digits)) a < 256 },
    ghost weighed: { Weighed (items digits) },
    ghost counted: { number_of radix ≡ size_states (digit_sizes (items digits)) },
    ghost few: { number_of radix ≤ 1048576 },
}

mod makes;
mod objects;
mod values;
