// What is printed of answers and tables. By functions and no `Display`: the types are of other crates, and
// such an `impl` is refused.
use protection::{Numbered, Verdict};
use std::io;
use systems::TableRefusal;
use walk::Found;

// Shows an answer as `tell` does, or the number of its refusal.
pub(crate) fn show<T, E: Numbered, F: FnOnce(T) -> io::Result<()>>(
    rt: &HostRuntime,
    answer: Result<T, E>,
    tell: F,
) -> io::Result<()>
    requires { F.IsAlwaysCallable tell }
{
    match answer {
        Ok(value) => tell(value),
        Err(refusal) => println!(rt; "refused {}", refusal.number()),
    }
}

// A refusal of a table may carry a move or a place.
pub(crate) fn show_filled(rt: &HostRuntime, answer: Result<(), TableRefusal>) -> io::Result<()> {
    if let Err(refusal) = answer {
        let number = refusal.number();
        match refusal {
            TableRefusal::Label { mv } => return println!(rt; "refused {number} {mv}"),
            TableRefusal::Entry { place } => return println!(rt; "refused {number} {place}"),
            _ => (),
        }
    }
    show(rt, answer, |_| println!(rt; "filled"))
}

pub(crate) fn show_verdict(rt: &HostRuntime, verdict: Verdict) -> io::Result<()> {
    match verdict {
        Verdict::Leak {
            found,
            tried,
            length,
        } => println!(rt; "leak {found} {tried} {length}"),
        Verdict::Never { found, tried } => println!(rt; "never {found} {tried}"),
    }
}

pub(crate) fn show_numbers(rt: &HostRuntime, name: &str, numbers: &[u32]) -> io::Result<()> {
    print!(rt; "{name}")?;
    for x in numbers {
        print!(rt; " {x}")?;
    }
    println!(rt; "")
}

pub(crate) fn show_list(rt: &HostRuntime, list: &[Found]) -> io::Result<()> {
    print!(rt; "found")?;
    for entry in list {
        print!(rt; " {}/{}/{}", entry.state, entry.parent, entry.mv)?;
    }
    println!(rt; "")
}
