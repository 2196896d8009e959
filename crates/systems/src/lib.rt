// Protection systems over tables of numbers, and lock lists over any protection system.
//
// numbers       the numbers of a table system
// check         the test of such numbers
// table         a table system
// table_system  its place behind the interface, and the call that fills it
// lock          a lock list
// lock_list     its place behind the interface, and the call that adds to it
// refusals      why numbers are refused, and why a lock is
#![tactic(auto)]

mod check;
pub mod lock;
pub mod lock_list;
pub mod numbers;
pub mod refusals;
pub mod table;
pub mod table_system;

pub use lock::LockList;
pub use numbers::Numbers;
pub use protection::Numbered;
pub use refusals::{LockRefusal, TableRefusal};
pub use table::TableSystem;
