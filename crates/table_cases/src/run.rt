// Runs a case: fills the table, locks, and asks.
use super::case::{Case, Query, Question};
use super::show::*;
use monitor::{Monitor, confirm};
use protection::{Permission, System, Verdict};
use std::alloc::{AllocError, Global};
use std::io;
use systems::{LockList, TableSystem};
use walk::Found;

// The system is a table under two lock lists. Where the table is filled again, what is asked is asked of it
// before that, too.
pub(crate) fn run_case(rt: &HostRuntime, case: &Case) -> anyhow::Result<()> {
    let mut table = TableSystem::new();
    for filling in case.earlier.as_slice() {
        show_filled(rt, table.fill(filling.numbers()))?;
        ask_all(rt, &table, case.questions.as_slice())?;
    }
    show_filled(rt, table.fill(case.last.numbers()))?;
    let mut inner = LockList::new(table);
    lock_all(rt, &mut inner, case.inner.as_slice())?;
    let mut outer = LockList::new(inner);
    lock_all(rt, &mut outer, case.outer.as_slice())?;
    ask_all(rt, &outer, case.questions.as_slice())
}

fn lock_all<S: System>(
    rt: &HostRuntime,
    list: &mut LockList<S>,
    locks: &[Permission],
) -> io::Result<()> {
    for p in locks {
        show(rt, list.lock(*p), |count| println!(rt; "locked {count}"))?;
    }
    Ok(())
}

fn ask_all<S: System>(rt: &HostRuntime, system: &S, questions: &[Question]) -> anyhow::Result<()> {
    let mut monitor = Monitor::new(system);
    for question in questions {
        match *question {
            Question::Query(query) => ask_query(rt, system, query)?,
            Question::Enforce { mv } => {
                show(rt, monitor.enforce(mv), |mv| println!(rt; "granted {mv}"))?
            }
            Question::Request { p } => {
                show(rt, monitor.request(p), |mv| println!(rt; "granted {mv}"))?
            }
            Question::May { p } => show(rt, monitor.may(p), |yes| match yes {
                true => println!(rt; "yes"),
                false => println!(rt; "no"),
            })?,
            Question::State => {
                let state = monitor.state();
                println!(rt; "state {state}")?;
            }
            Question::Restart => monitor.restart(),
        }
    }
    Ok(())
}

// Analyses with tables of these lengths, whose numbers tell each entry from every other; shows
// all that they hold, and where a witness leads.
fn ask_query<S: System>(rt: &HostRuntime, system: &S, query: Query) -> anyhow::Result<()> {
    let heap = rt.alloc();
    let mut marks = numbers_from(heap, 1000, query.marks)?;
    let mut found: Vec<Found> = (0..query.found)
        .map(|i| Found {
            state: i.wrapping_add(3000),
            parent: i.wrapping_add(4000),
            mv: i.wrapping_add(5000),
        })
        .collect(heap)?;
    let mut witness = numbers_from(heap, 2000, query.witness)?;
    let answer = confirm(
        system,
        query.q,
        marks.as_mut_slice(),
        found.as_mut_slice(),
        witness.as_mut_slice(),
    );
    show(rt, answer, |verdict| show_verdict(rt, verdict))?;
    show_numbers(rt, "marks", marks.as_slice())?;
    show_list(rt, found.as_slice())?;
    show_numbers(rt, "witness", witness.as_slice())?;
    if let Ok(Verdict::Leak { length, .. }) = answer {
        if let Some(moves) = witness.as_slice().get(..length as usize) {
            let mut monitor = Monitor::new(system);
            let replayed = monitor.replay(moves);
            let state = monitor.state();
            show(rt, replayed, |_| println!(rt; "replayed to {state}"))?;
        }
    }
    Ok(())
}

// So many numbers, one after another.
fn numbers_from(heap: Global, first: u32, count: u32) -> Result<Vec<u32>, AllocError> {
    (0..count).map(|i| i.wrapping_add(first)).collect(heap)
}
