// Codes for given sizes.
ghost use Rattle.std.specs.Prelude.{◌≡◌, ◌%◌, if◌then◌else◌, Some, None, nat_le};
ghost use Rattle.std.specs.Option.{option_map};
ghost use Rattle.bounded.specs.Items.{items};
ghost use Rattle.scheme.specs.Sizes.{size_states};
ghost use Rattle.codes.specs.Meanings.{sizes_in};

use super::{Codes, MAX_STATES};
use crate::digit::Digit;
use crate::divisor::Divisor;
use bounded::Bounded;

impl Codes {
    // None where one object has more than 1,048,576 codes.
    pub fn of(sizes: Bounded<u8, 4>) -> Option<Codes>
        ensures { option_map sizes_in result ≡ (if nat_le (size_states (items sizes)) 1048576 then Some (items sizes) else None) }
    {
        let mut digits = Bounded::new(Digit::new(0, 1));
        // The product of size + 1 over the attributes so far. Four sizes are at most 2 to the power 32.
        // No chain: the product is each digit's weight, and at the end counts the codes.
        let mut weight = 1;
        for size in sizes.as_slice() {
            digits.push(Digit::new(*size, weight as u32)).unwrap();
            weight *= *size as u64 + 1;
        }
        let radix = 1 + weight;
        if radix > MAX_STATES as u64 {
            return None;
        }
        Some(Codes {
            digits,
            radix: Divisor::of(radix as u32).unwrap(),
        })
    }

    // How many codes there are: every code is below this number.
    pub fn radix(&self) -> u32
        ensures { result ≡ size_states (sizes_in self.now) }
    {
        self.radix.number()
    }

    // The code in the lowest place of a number in which each place has a code.
    pub fn lowest_code(&self, number: u32) -> u32
        ensures { result ≡ number % size_states (sizes_in self.now) }
    {
        self.radix.rest(number)
    }
}
