// A line by its kind: which kind it is, what each of its words is, and whether they have the forms
// that the kind asks.
//
// order      the kind that a first word names, and where a line of that kind may stand
// statement  a line of a known kind
// role       what each word of such a line is
// fault      what can be wrong with a line by itself
// line       the statement that a line without such a fault is
#![tactic(auto)]

pub mod fault;
pub mod line;
pub mod order;
pub mod role;
pub mod statement;
