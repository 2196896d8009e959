// The scheme record: an accepted scheme, which is a protection system.
//
// numbering   states by their numbers and back
// moves       the policy, subject and object of each move
// queries     what queries ask about
// record      the record: what is declared, with what follows from it for states and moves; its states,
//             steps and labels; and its place behind the interface of protection systems
#![tactic(auto)]

pub mod moves;
pub mod numbering;
pub mod queries;
pub mod record;

pub use queries::permission_asked;
pub use record::Scheme;
