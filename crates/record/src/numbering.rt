// The numbers of the states of so many objects.
ghost use Rattle.std.specs.Prelude.{◌≡◌, ◌^◌, ◌≤◌, length};
ghost use Rattle.bounded.specs.Items.{items};
ghost use Rattle.scheme.specs.Sizes.{size_states};
ghost use Rattle.codes.specs.Meanings.{sizes_in};
ghost use Rattle.record.specs.Places.{Places};

use bounded::Bounded;
use codes::{Codes, Divisor, ObjectState};

// An entry for each object, by its number.
pub type State = Bounded<ObjectState, 8>;

#[derive(Clone, Copy)]
pub struct Numbering {
    codes: Codes,
    // What the code of each object counts for.
    places: Bounded<Divisor, 8>,
    states: u32,
    ghost placed: { Places (size_states (sizes_in codes)) (items places) },
    ghost counted: { states ≡ size_states (sizes_in codes) ^ length (items places) },
    ghost few: { states ≤ 1048576 },
}

mod makes;
pub(crate) mod places;
mod states;
