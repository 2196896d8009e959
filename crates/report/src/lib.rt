// The whole report of a scheme text, as bytes: what `annex` prints.
//
// names    names by their numbers
// moves    the lines that tell the moves of a witness
// refusal  the line that tells a refusal
// answers  the lines that answer a query
// whole    the lines of a whole report
// output   what is printed of a text
#![tactic(auto)]

mod answers;
mod moves;
mod names;
pub mod output;
pub mod refusal;
pub mod whole;

pub use output::annex;
pub use refusal::put_refusal;
pub use whole::put_report;
