// Attributes on the code of an object.
ghost use Rattle.std.specs.Prelude.{◌≡◌, ◌<◌, slice_get, slice_index};
ghost use Rattle.std.specs.Option.{option_copied};
ghost use Rattle.bounded.specs.Items.{items};
ghost use Rattle.scheme.specs.WellFormed.{value_fits};
ghost use Rattle.codes.specs.Objects.{read_at};
ghost use Rattle.codes.specs.Codes.{part, value_in, object_from, updated_code};
ghost use Rattle.codes.specs.Meanings.{sizes_in};

use super::Codes;
use crate::digit::{Digit, part_of, value_of};
use crate::object::ABSENT;

// A code and the number of an attribute stand side by side, and no struct has both: of one code several
// attributes are read, and the caller has each by itself.
impl Codes {
    // None where there is no such attribute.
    fn digit(&self, attribute: u8) -> Option<&Digit>
        ensures { option_copied result ≡ slice_get (items self.now.digits) attribute }
    {
        self.digits.as_slice().get(attribute as usize)
    }

    // Null, or a value below the size of the attribute, which is 0 where there is no such attribute. Total
    // here and below, as the definitions are.
    fn fits(&self, attribute: u8, value: Option<u8>) -> bool
        ensures { result ≡ value_fits (slice_index (sizes_in self.now) attribute) value }
    {
        self.digit(attribute)
            .map_or(value.is_none(), |digit| digit.fits(value))
    }

    // The part of an attribute in a code; 0 where there is no such attribute.
    fn part_in(&self, code: u32, attribute: u8) -> u32
        ensures value { result ≡ part (value_in (sizes_in self.now) code attribute) }
        ensures small { result < 257 }
    {
        self.digit(attribute)
            .map_or(0, |digit| digit.part_in(code.saturating_sub(1)))
    }

    // The value, or null, of an attribute in the code of an object that is there.
    fn value(&self, code: u32, attribute: u8) -> Option<u8>
        ensures { result ≡ value_in (sizes_in self.now) code attribute }
    {
        value_of(self.part_in(code, attribute))
    }

    // The same of any code: nothing can be read of an absent object.
    pub fn read(&self, code: u32, attribute: u8) -> Option<Option<u8>>
        ensures { result ≡ read_at (object_from (sizes_in self.now) code) attribute }
    {
        if code == ABSENT {
            return None;
        }
        Some(self.value(code, attribute))
    }

    // The code of the object with another value, or null, of an attribute; none where the object is
    // absent, the value is not below the size, or the number is no code.
    pub fn update(&self, code: u32, attribute: u8, value: Option<u8>) -> Option<u32>
        ensures { result ≡ updated_code (sizes_in self.now) code attribute value }
    {
        if code == ABSENT || code >= self.radix() || !self.fits(attribute, value) {
            return None;
        }
        let Some(digit) = self.digit(attribute) else {
            return Some(code);
        };
        let old = digit.part_in(code - 1);
        let new = part_of(value);
        let weight = digit.weight.number();
        Some(code - old * weight + new * weight)
    }
}
