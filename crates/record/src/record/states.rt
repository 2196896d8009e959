// States by their numbers.
ghost use Rattle.std.specs.Prelude.{◌≡◌, if◌then◌else◌, Some, None, nat_lt};
ghost use Rattle.std.specs.Option.{option_map};
ghost use Rattle.scheme.specs.Sizes.{sizes_of};
ghost use Rattle.scheme.specs.Counts.{state_count};
ghost use Rattle.record.specs.States.{state_fits, number, state_from, Corresponds};
ghost use Rattle.record.specs.Numberings.{state_of};
ghost use Rattle.record.specs.Systems.{object_count};
ghost use Rattle.record.specs.Schemes.{scheme_of};

use super::Scheme;
use crate::numbering::State;

impl Scheme {
    // The number of a state; none where it is no state of this scheme. `one_to_one`: states and the
    // numbers below their count correspond.
    #[tactic(auto, using(crate::proofs::Dimensions::dimensions, crate::proofs::Digits::corresponds))]
    pub fn encode(&self, state: &State) -> Option<u32>
        ensures value { result ≡ (if state_fits (sizes_of (scheme_of self.now)) (object_count (scheme_of self.now)) (state_of state.now) then Some (number (sizes_of (scheme_of self.now)) (state_of state.now)) else None) }
        ensures one_to_one { Corresponds (sizes_of (scheme_of self.now)) (object_count (scheme_of self.now)) }
    {
        self.numbering.number(state)
    }

    // The state that a number stands for; none where the number is not below the count of states.
    pub fn decode(&self, number: u32) -> Option<State>
        ensures value { option_map state_of result ≡ (if nat_lt number (state_count (scheme_of self.now)) then Some (state_from (sizes_of (scheme_of self.now)) (object_count (scheme_of self.now)) number) else None) }
        ensures one_to_one { Corresponds (sizes_of (scheme_of self.now)) (object_count (scheme_of self.now)) }
    {
        self.numbering.state(number)
    }
}
