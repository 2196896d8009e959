// Whole objects by their codes, and codes by whole objects.
ghost use Rattle.std.specs.Prelude.{◌≡◌, ◌<◌, IfSome, if◌then◌else◌, Some, None, nat_lt};
ghost use Rattle.std.specs.Option.{option_map};
ghost use Rattle.bounded.specs.Items.{items};
ghost use Rattle.scheme.specs.Sizes.{size_states};
ghost use Rattle.codes.specs.Objects.{object_fits};
ghost use Rattle.codes.specs.Codes.{values_from, object_from, code, Corresponds};
ghost use Rattle.codes.specs.Weights.{summed};
ghost use Rattle.codes.specs.Meanings.{object_of, sizes_in};

use super::Codes;
use crate::digit::{part_of, value_of};
use crate::object::{ABSENT, ObjectState, Values};
use bounded::Bounded;

impl Codes {
    // The values that a sum of parts stands for.
    fn values_from(&self, sum: u32) -> Values
        ensures { items result ≡ values_from (sizes_in self.now) sum }
    {
        let digits = self.digits.as_slice().iter();
        Bounded::collect(None, digits.map(|digit| value_of(digit.part_in(sum)))).unwrap()
    }

    // The object that a code stands for; none where the number is no code. `one_to_one`: objects and the
    // numbers below the count of codes correspond.
    #[tactic(auto, using(crate::proofs::Digits::corresponds))]
    pub fn object(&self, code: u32) -> Option<ObjectState>
        ensures value { option_map object_of result ≡ (if nat_lt code (size_states (sizes_in self.now)) then Some (object_from (sizes_in self.now) code) else None) }
        ensures one_to_one { Corresponds (sizes_in self.now) }
    {
        if code >= self.radix() {
            return None;
        }
        match code {
            ABSENT => Some(ObjectState::Absent),
            code => Some(ObjectState::There(self.values_from(code - 1))),
        }
    }

    // The sum of the parts, each times its weight; none where the values are not those of an object.
    fn weigh(&self, values: &[Option<u8>]) -> Option<u32>
        ensures value { result ≡ summed 0 1 (sizes_in self.now) values.now }
        ensures small { IfSome result (λ sum. sum < 1048576) }
    {
        let digits = self.digits.as_slice();
        if values.len() != digits.len() {
            return None;
        }
        let mut sum = 0;
        // no `try_fold`, which is no plainer: its closure would have to state how large the sum can be
        for (digit, value) in digits.iter().zip(values) {
            if !digit.fits(*value) {
                return None;
            }
            sum += part_of(*value) * digit.weight.number();
        }
        Some(sum)
    }

    // The code of an object; none where it has not a value or null for each attribute. `one_to_one`: as above.
    #[tactic(auto, using(crate::proofs::Digits::corresponds))]
    pub fn code(&self, object: &ObjectState) -> Option<u32>
        ensures value { result ≡ (if object_fits (sizes_in self.now) (object_of object.now) then Some (code (sizes_in self.now) (object_of object.now)) else None) }
        ensures one_to_one { Corresponds (sizes_in self.now) }
    {
        match object {
            ObjectState::Absent => Some(ABSENT),
            ObjectState::There(values) => Some(1 + self.weigh(values.as_slice())?),
        }
    }
}
