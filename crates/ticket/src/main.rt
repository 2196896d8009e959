// A ticket of ten rides: a protection system of one's own, analysed and monitored.
// docs/YOUR-OWN-SYSTEM.md goes through it step by step.
//
// moves      what can be done with a ticket, and who may do it
// ticket     a ticket behind the interface of protection systems
// questions  what is asked of it: two analyses, and rides on a monitor
// show       what is printed of the answers
#![tactic(auto)]

mod moves;
mod questions;
mod show;
mod ticket;

fn main(rt: HostRuntime) -> std::io::Result<()> {
    show::show_all(&rt)
}
