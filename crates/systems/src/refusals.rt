// Why a table's numbers are refused, and why a lock is.
ghost use Rattle.std.specs.Prelude.{◌≡◌};
ghost use Rattle.systems.specs.declared.refusals.LockRefusal.TheVariants.{Full};
ghost use Rattle.systems.specs.Refusals.{table_refusal_values, lock_refusal_values};

use protection::Numbered;

#[derive(Clone, Copy)]
pub enum TableRefusal {
    // a count is out of bounds
    Counts,
    // the labels are not three a move, or the entries not one for each state and move
    Lengths,
    // the start is not below the count of states
    Start,
    // the first move whose label is out of the counts
    Label { mv: u32 },
    // the place of the first entry that is above the count of states
    Entry { place: u32 },
}

impl Numbered for TableRefusal {
    ghost values = { table_refusal_values };

    fn number(self) -> u32
        ensures { result ≡ (table_refusal_values self).number }
    {
        match self {
            TableRefusal::Counts => 40,
            TableRefusal::Lengths => 41,
            TableRefusal::Start => 42,
            TableRefusal::Label { mv: _ } => 43,
            TableRefusal::Entry { place: _ } => 44,
        }
    }
}

#[derive(Clone, Copy)]
pub enum LockRefusal {
    // the permission is out of the system's counts
    OutOfCounts,
    // sixteen permissions are listed
    Full,
}

impl From<bounded::Full> for LockRefusal {
    ghost from_gives = { λ _ refusal. refusal ≡ Full };

    fn from(_full: bounded::Full) -> Self {
        LockRefusal::Full
    }
}

impl Numbered for LockRefusal {
    ghost values = { lock_refusal_values };

    fn number(self) -> u32
        ensures { result ≡ (lock_refusal_values self).number }
    {
        match self {
            LockRefusal::OutOfCounts => 51,
            LockRefusal::Full => 50,
        }
    }
}
