// An object in a state.
use bounded::Bounded;

// A value, or none for null, for each attribute.
pub type Values = Bounded<Option<u8>, 4>;

// The code of an absent object, as the documents number states.
pub const ABSENT: u32 = 0;

// No `Option<Values>`: absent is a state of an object, and `Codes::object` has none for a number that is
// no code.
#[derive(Clone, Copy)]
pub enum ObjectState {
    Absent,
    There(Values),
}
