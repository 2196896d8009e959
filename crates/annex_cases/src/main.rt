// Reads many texts from standard input, each behind its length on a line of its own, and prints the
// report of each.
#![tactic(auto)]

use input::{Texts, read_up_to};
use report::annex;
use std::io;
use std::io::Write;

fn run(rt: &HostRuntime) -> io::Result<()> {
    // room for all cases
    let mut buffer = [0u8; 262_144];
    let bytes = read_up_to(&mut rt.stdin(), &mut buffer)?;
    let mut reports = Vec::new(rt.alloc());
    for text in Texts::of(bytes) {
        annex(&mut reports, text)?;
    }
    rt.stdout().write_all(reports.as_slice())
}

fn main(rt: HostRuntime) -> io::Result<()> {
    run(&rt)
}
