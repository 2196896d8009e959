// Reads a scheme text from standard input and prints its report.
//
// failure  what can go wrong, as sentences
// print    the report of all that a reader has, printed to a writer
#![tactic(auto)]

mod failure;
mod print;
#[cfg(test)]
mod tests;

use failure::Failure;
use print::print_report;
use std::env::FillError;
use std::process::ExitCode;
use std::rt::Env;

// The program takes no argument behind its own name.
fn refuse_arguments<R: Env>(rt: &R) -> Result<(), Failure> {
    match rt.arg(1, &mut []) {
        Err(FillError::NotPresent) => Ok(()),
        _ => Err(Failure::Arguments),
    }
}

fn run(rt: &HostRuntime) -> Result<(), Failure> {
    refuse_arguments(rt)?;
    print_report(&mut rt.stdin(), &mut rt.stdout(), rt.alloc())
}

fn main(rt: HostRuntime) -> ExitCode {
    match run(&rt) {
        Ok(()) => ExitCode::SUCCESS,
        Err(failure) => {
            // Where standard error fails too, the status still tells.
            let _ = eprintln!(rt; "annex: {failure}");
            ExitCode::FAILURE
        }
    }
}
