// The codes of objects: one number for each choice of absence, values and nulls. Attributes are
// read and changed on the code itself; nothing is decoded for it.
//
// object   an object in a state
// divisor  a number to divide by
// digit    one attribute in a code
// codes    the digits of all attributes; values by codes and back
#![tactic(auto)]

pub mod codes;
mod digit;
pub mod divisor;
pub mod object;

pub use codes::{Codes, MAX_STATES};
pub use divisor::Divisor;
pub use object::{ABSENT, ObjectState};
