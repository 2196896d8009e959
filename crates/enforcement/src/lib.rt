// Policies enforced on a subject and an object, which are given by their codes.
//
// pair         the codes of a subject and an object
// parties      the two with what their codes stand for
// predicates   which predicates hold
// actions      what an action makes of the two
// policy       all predicates, then all actions in order
#![tactic(auto)]

mod actions;
pub mod pair;
mod parties;
pub mod policy;
pub mod predicates;

pub use pair::Pair;
pub use policy::enforce;
