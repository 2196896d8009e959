// What is printed of the answers.
use crate::moves::{Move, STAMP, STATES};
use crate::questions::{payment, renewal, rides};
use crate::ticket::Ticket;
use monitor::Monitor;
use protection::{Numbered, Refusal, Verdict};
use std::io;

pub(crate) fn show_all(rt: &HostRuntime) -> io::Result<()> {
    let mut witness = [0; STATES];
    println!(rt; "can the office come to renew a ticket?")?;
    show_verdict(rt, renewal(&mut witness), &witness)?;
    println!(rt; "can the office come to pay for rides that are left?")?;
    show_verdict(rt, payment(), &[])?;
    println!(rt; "how many rides are granted on a new ticket?")?;
    println!(rt;
        "{} of 9, {} of 10, {} of 11",
        rides(9),
        rides(10),
        rides(11)
    )?;
    show_rides(rt)
}

// A verdict, and under leak the moves with which the witness begins.
fn show_verdict(
    rt: &HostRuntime,
    answer: Result<Verdict, Refusal>,
    witness: &[u32],
) -> io::Result<()> {
    match answer {
        Ok(
            Verdict::Leak {
                found,
                tried,
                length,
            },
        ) => {
            println!(rt; "leak: {found} states found, {tried} moves tried")?;
            show_moves(rt, witness.get(..length as usize).unwrap_or(&[]))
        }
        Ok(Verdict::Never { found, tried }) => {
            println!(rt; "never: {found} states found, {tried} moves tried")
        }
        Err(refusal) => println!(rt; "refused {}", refusal.number()),
    }
}

fn show_moves(rt: &HostRuntime, moves: &[u32]) -> io::Result<()> {
    for mv in moves {
        if let Some(mv) = Move::numbered(*mv) {
            println!(rt; "  {}", name(mv))?;
        }
    }
    Ok(())
}

fn name(mv: Move) -> &'static str {
    match mv {
        Move::Stamp => "stamp",
        Move::GiveBack => "give back",
        Move::Renew => "renew",
        Move::PayBack => "pay back",
    }
}

// Eleven rides on one ticket, one after another.
fn show_rides(rt: &HostRuntime) -> io::Result<()> {
    let mut monitor = Monitor::new(Ticket);
    for ride in 1..=11 {
        match monitor.request(STAMP) {
            Ok(_) => println!(rt; "ride {ride} is granted")?,
            Err(denial) => println!(rt; "ride {ride} is refused with {}", denial.number())?,
        }
    }
    Ok(())
}
