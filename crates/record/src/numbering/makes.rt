// The numbering for given sizes and a given count of objects.
ghost use Rattle.std.specs.Prelude.{◌≡◌, ◌^◌, ◌<◌, ◌≤◌, length, if◌then◌else◌, Some, None, nat_le};
ghost use Rattle.std.specs.Option.{option_map};
ghost use Rattle.bounded.specs.Items.{items};
ghost use Rattle.codes.specs.Divisors.{number_of};
ghost use Rattle.record.specs.Places.{Places};
ghost use Rattle.record.specs.Numberings.{dimensions_of, within_bounds};

use super::Numbering;
use bounded::Bounded;
use codes::{Codes, Divisor, MAX_STATES};

// A count of objects is at most 8 in what follows, because a draft has no more: it comes from a draft's
// list, so that a type of its own would only say again what the list's contract says.

// The count of codes to the power of the count of objects; none where that is more than a walk may
// have.
fn count_states(radix: u32, objects: u32) -> Option<u32>
    ensures { result ≡ (if nat_le (radix ^ objects) 1048576 then Some (radix ^ objects) else None) }
{
    radix
        .checked_pow(objects)
        .filter(|states| *states <= MAX_STATES)
}

// What the code of an object counts for.
#[tactic(auto, using(crate::proofs::Powers::pow_pos))]
fn place_of(radix: u32, object: u32) -> Divisor
    requires positive { 0 < radix }
    requires few { radix ^ object ≤ 1048576 }
    ensures { number_of result ≡ radix ^ object }
{
    Divisor::of(radix.pow(object)).unwrap()
}

fn places_of(radix: u32, objects: u32) -> Bounded<Divisor, 8>
    requires positive { 0 < radix }
    requires fits { objects ≤ 8 }
    requires few { radix ^ objects ≤ 1048576 }
    ensures places { Places radix (items result) }
    ensures count { length (items result) ≡ objects }
{
    let places = (0..objects).map(|object| place_of(radix, object));
    Bounded::collect(place_of(radix, 0), places).unwrap()
}

impl Numbering {
    // The numbers of the states of at most eight objects with attributes of these sizes; none where
    // there are more than 1,048,576, of one object or of all.
    pub(crate) fn of(sizes: Bounded<u8, 4>, objects: usize) -> Option<Numbering>
        requires { objects ≤ 8 }
        ensures { option_map dimensions_of result ≡ (if within_bounds (items sizes) objects then Some (record { sizes = items sizes; objects = objects }) else None) }
    {
        let codes = Codes::of(sizes)?;
        let radix = codes.radix();
        let states = count_states(radix, objects as u32)?;
        let places = places_of(radix, objects as u32);
        Some(Numbering {
            codes,
            places,
            states,
        })
    }
}
