// Protection systems: the interface, the analysis of any of them, and its safety promise.
//
// permission  a subject, an object and a right
// interface   what a protection system is: a walk whose moves have labels
// analysis    whether a permission can ever be granted
// answers     the verdict, and the refusals of an analysis
// numbered    refusals by their numbers
// lent        a system that is lent is a system
//
// The safety promise is the clause `safety` of `analyse`; specs/Safety.antt says what it means. When an
// analysis is refused, and what it visits and writes otherwise, say the clauses `refused` and `visits`
// (specs/Verdicts.antt).
#![tactic(auto)]

pub mod analysis;
pub mod answers;
pub mod interface;
pub mod lent;
pub mod numbered;
pub mod permission;

pub use analysis::{analyse, in_counts};
pub use answers::{Refusal, Verdict};
pub use interface::System;
pub use numbered::Numbered;
pub use permission::Permission;
