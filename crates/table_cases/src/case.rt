// A case, line by line: the numbers with which a table is filled, once or more, locks, and what is asked of
// the system.
ghost use Rattle.std.specs.Prelude.{◌≡◌, slice_index};

use anyhow::anyhow;
use protection::Permission;
use std::alloc::{AllocError, Global};
use std::mem;
use systems::Numbers;

// An analysis, with tables of these lengths.
#[derive(Clone, Copy)]
pub(crate) struct Query {
    pub(crate) q: Permission,
    pub(crate) marks: u32,
    pub(crate) found: u32,
    pub(crate) witness: u32,
}

// What is asked: an analysis, or a call of a monitor.
#[derive(Clone, Copy)]
pub(crate) enum Question {
    Query(Query),
    Enforce { mv: u32 },
    Request { p: Permission },
    May { p: Permission },
    State,
    Restart,
}

// The numbers of one filling: those of its lines `labels` and `entries`, which may stand before its line `table`,
// and the counts that this line gives. What no line gives is empty, or 0.
#[derive(Drop)]
pub(crate) struct Filling {
    counts: Option<Vec<u32>>,
    labels: Vec<u32>,
    entries: Vec<u32>,
}

#[derive(Drop)]
pub(crate) struct Case {
    pub(crate) earlier: Vec<Filling>,
    pub(crate) last: Filling,
    pub(crate) inner: Vec<Permission>,
    pub(crate) outer: Vec<Permission>,
    pub(crate) questions: Vec<Question>,
}

// The number at a place of a line; one that is missing counts as 0.
pub(crate) fn number_at(numbers: &[u32], place: usize) -> u32
    ensures { result ≡ slice_index numbers.now place }
{
    numbers.get(place).copied().unwrap_or(0)
}

// The permission that begins a line's numbers.
fn permission(numbers: &[u32]) -> Permission
    ensures { result ≡ record { subject = slice_index numbers.now 0; object = slice_index numbers.now 1; right = slice_index numbers.now 2 } }
{
    Permission {
        subject: number_at(numbers, 0),
        object: number_at(numbers, 1),
        right: number_at(numbers, 2),
    }
}

// What a line asks, if its first word is that of a question.
fn asked(word: &str, numbers: &[u32]) -> Option<Question> {
    let p = permission(numbers);
    match word {
        "query" => Some(Question::Query(Query {
            q: p,
            marks: number_at(numbers, 3),
            found: number_at(numbers, 4),
            witness: number_at(numbers, 5),
        })),
        "enforce" => Some(Question::Enforce {
            mv: number_at(numbers, 0),
        }),
        "request" => Some(Question::Request { p }),
        "may" => Some(Question::May { p }),
        "state" => Some(Question::State),
        "restart" => Some(Question::Restart),
        _ => None,
    }
}

impl Filling {
    fn new(heap: Global) -> Self {
        Filling {
            counts: None,
            labels: Vec::new(heap),
            entries: Vec::new(heap),
        }
    }

    pub(crate) fn numbers(&self) -> Numbers<'_> {
        let counts: &[u32] = match &self.counts {
            Some(counts) => counts.as_slice(),
            None => &[],
        };
        Numbers {
            states: number_at(counts, 0),
            moves: number_at(counts, 1),
            objects: number_at(counts, 2),
            rights: number_at(counts, 3),
            start: number_at(counts, 4),
            labels: self.labels.as_slice(),
            entries: self.entries.as_slice(),
        }
    }
}

impl Case {
    pub(crate) fn new(heap: Global) -> Self {
        Case {
            earlier: Vec::new(heap),
            last: Filling::new(heap),
            inner: Vec::new(heap),
            outer: Vec::new(heap),
            questions: Vec::new(heap),
        }
    }

    // The first line `table` gives its counts to the first filling, each one after it to a new one.
    fn take_counts(&mut self, heap: Global, counts: Vec<u32>) -> Result<(), AllocError> {
        if self.last.counts.is_some() {
            let last = mem::replace(&mut self.last, Filling::new(heap));
            self.earlier.push(last)?;
        }
        self.last.counts = Some(counts);
        Ok(())
    }

    // Takes a line, by its first word and its numbers.
    pub(crate) fn take(
        &mut self,
        heap: Global,
        word: &str,
        numbers: Vec<u32>,
    ) -> anyhow::Result<()> {
        match word {
            "table" => self.take_counts(heap, numbers)?,
            "labels" => self.last.labels = numbers,
            "entries" => self.last.entries = numbers,
            "inner" => self.inner.push(permission(numbers.as_slice()))?,
            "outer" => self.outer.push(permission(numbers.as_slice()))?,
            _ => {
                let question = asked(word, numbers.as_slice());
                self.questions
                    .push(question.ok_or_else(|| anyhow!("unknown line"))?)?;
            }
        }
        Ok(())
    }
}
