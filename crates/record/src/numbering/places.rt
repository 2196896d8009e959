// One object of a state, as a digit of the state's number.
ghost use Rattle.std.specs.Prelude.{◌≡◌, ◌/◌, ◌%◌, ◌^◌, ◌<◌, slice_set};
ghost use Rattle.scheme.specs.Sizes.{size_states};
ghost use Rattle.codes.specs.Codes.{object_from};
ghost use Rattle.codes.specs.Divisors.{number_of};
ghost use Rattle.codes.specs.Meanings.{sizes_in};
ghost use Rattle.record.specs.States.{number, state_from};
ghost use Rattle.record.specs.Numberings.{dimensions_of};

use super::Numbering;
use codes::{Codes, Divisor};

impl Numbering {
    pub(crate) fn codes(&self) -> &Codes
        ensures { sizes_in result.now ≡ (dimensions_of self.now).sizes }
    {
        &self.codes
    }

    // What the code of an object counts for. Here and below an object's number is an index, and below the
    // count as an index of a slice is: a type of such numbers would have to borrow its numbering.
    fn place(&self, object: u32) -> Divisor
        requires { object < (dimensions_of self.now).objects }
        ensures { number_of result ≡ size_states (dimensions_of self.now).sizes ^ object }
    {
        self.places.as_slice()[object as usize]
    }

    // The code of an object in a state.
    pub(crate) fn code_at(&self, state: u32, object: u32) -> u32
        requires { object < (dimensions_of self.now).objects }
        ensures { result ≡ state / size_states (dimensions_of self.now).sizes ^ object % size_states (dimensions_of self.now).sizes }
    {
        self.codes.lowest_code(self.place(object).divide(state))
    }

    // The state with another code in the place of an object's.
    pub(crate) fn exchange(&self, state: u32, object: u32, old: u32, new: u32) -> u32
        requires state { state < size_states (dimensions_of self.now).sizes ^ (dimensions_of self.now).objects }
        requires object { object < (dimensions_of self.now).objects }
        requires old { old ≡ state / size_states (dimensions_of self.now).sizes ^ object % size_states (dimensions_of self.now).sizes }
        requires new { new < size_states (dimensions_of self.now).sizes }
        ensures value { result ≡ number (dimensions_of self.now).sizes (slice_set (state_from (dimensions_of self.now).sizes (dimensions_of self.now).objects state) object (object_from (dimensions_of self.now).sizes new)) }
        ensures below { result < size_states (dimensions_of self.now).sizes ^ (dimensions_of self.now).objects }
    {
        let place = self.place(object).number();
        state - old * place + new * place
    }
}
