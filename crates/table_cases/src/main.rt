// Reads cases from standard input, and prints what tables, lock lists, the analysis and monitors answer.
#![tactic(auto)]

mod case;
mod run;
mod show;

use case::Case;

fn main(rt: HostRuntime) -> anyhow::Result<()> {
    run_all(&rt)
}

// Each case ends with a line `end`.
fn run_all(rt: &HostRuntime) -> anyhow::Result<()> {
    let mut case = Case::new(rt.alloc());
    for line in rt.lines(rt.alloc()) {
        let line = line?;
        let text = line.as_str();
        if text == "end" {
            run::run_case(rt, &case)?;
            case = Case::new(rt.alloc());
        } else {
            take_line(rt, &mut case, text)?;
        }
    }
    Ok(())
}

// A line is a word and then numbers.
fn take_line(rt: &HostRuntime, case: &mut Case, line: &str) -> anyhow::Result<()> {
    let mut parts = line.trim_start_matches(' ').split(' ');
    let word = parts.next().unwrap_or("");
    let numbers = parts
        .map(|part| -> anyhow::Result<u32> { Ok(part.parse::<u32>()?) })
        .try_collect(rt.alloc())?;
    case.take(rt.alloc(), word, numbers)
}
