// Whole states by their numbers, and numbers by whole states.
ghost use Rattle.std.specs.Prelude.{◌≡◌, ◌^◌, ◌<◌, map, length, if◌then◌else◌, Some, None, MatchOption, nat_lt};
ghost use Rattle.std.specs.Option.{option_map};
ghost use Rattle.scheme.specs.Sizes.{size_states};
ghost use Rattle.codes.specs.Meanings.{object_of};
ghost use Rattle.record.specs.States.{state_fits, number, state_from};
ghost use Rattle.record.specs.Numberings.{dimensions_of, state_of, summed_from};

use super::{Numbering, State};
use bounded::Bounded;
use codes::ObjectState;

impl Numbering {
    // How many states there are: every number of a state is below this one.
    pub(crate) fn states(&self) -> u32
        ensures { result ≡ size_states (dimensions_of self.now).sizes ^ (dimensions_of self.now).objects }
    {
        self.states
    }

    // The sum of the objects' codes, each times what it counts for; none where an object has not a
    // value or null for each attribute.
    fn sum_codes(&self, objects: &[ObjectState]) -> Option<u32>
        requires { length objects.now ≡ (dimensions_of self.now).objects }
        ensures { result ≡ summed_from 0 0 (dimensions_of self.now).sizes (map object_of objects.now) }
    {
        let mut sum = 0;
        // no `try_fold`, which is no plainer: its closure would have to state how large the sum can be
        for (object, place) in objects.iter().zip(self.places.as_slice()) {
            let code = self.codes.code(object)?;
            sum += code * place.number();
        }
        Some(sum)
    }

    // The number of a state; none where it is no state of these objects and attributes.
    pub(crate) fn number(&self, state: &State) -> Option<u32>
        ensures { result ≡ (if state_fits (dimensions_of self.now).sizes (dimensions_of self.now).objects (state_of state.now) then Some (number (dimensions_of self.now).sizes (state_of state.now)) else None) }
    {
        let objects = state.as_slice();
        if objects.len() != self.places.as_slice().len() {
            return None;
        }
        self.sum_codes(objects)
    }

    // The state that a number stands for; none where there is no such state.
    pub(crate) fn state(&self, number: u32) -> Option<State>
        ensures { option_map state_of result ≡ (if nat_lt number (size_states (dimensions_of self.now).sizes ^ (dimensions_of self.now).objects) then Some (state_from (dimensions_of self.now).sizes (dimensions_of self.now).objects number) else None) }
    {
        if number >= self.states {
            return None;
        }
        let codes = &self.codes;
        let places = self.places.as_slice().iter();
        // A lowest code is a code, and so the code of an object.
        let objects = places.map(|place| {
            let code = codes.lowest_code(place.divide(number));
            codes.object(code).unwrap()
        });
        Some(Bounded::collect(ObjectState::Absent, objects).unwrap())
    }
}
