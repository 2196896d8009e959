// The table of all moves, so that no move is taken apart twice.
ghost use Rattle.std.specs.Prelude.{◌≡◌, ◌*◌, ◌≤◌, map};
ghost use Rattle.std.specs.List.{range_with_len};
ghost use Rattle.bounded.specs.Items.{items};
ghost use Rattle.record.specs.Moves.{move_at};
ghost use Rattle.record.specs.Entries.{packed, unpacked};

use super::{Move, move_at};
use bounded::Bounded;

// A move in three bytes: a policy's number is below 32 and an object's below 8. The table stands in every record,
// and is copied with it.
#[derive(Clone, Copy)]
pub struct Entry {
    policy: u8,
    subject: u8,
    object: u8,
}

impl Entry {
    // What does not fit a byte is cut off.
    fn of(mv: Move) -> Entry
        ensures { result ≡ packed mv }
    {
        Entry {
            policy: (mv.policy % 256) as u8,
            subject: (mv.subject % 256) as u8,
            object: (mv.object % 256) as u8,
        }
    }

    pub(crate) fn unpacked(self) -> Move
        ensures { result ≡ unpacked self }
    {
        Move {
            policy: u32::from(self.policy),
            subject: u32::from(self.subject),
            object: u32::from(self.object),
        }
    }
}

// At most 8 objects, as in `Numbering::of`.
pub(crate) fn moves_of(objects: u32, policies: u32) -> Bounded<Entry, 2048>
    requires objects { objects ≤ 8 }
    requires policies { policies ≤ 32 }
    ensures { map unpacked (items result) ≡ map (move_at objects) (range_with_len 0 (objects * objects * policies)) }
{
    let filler = Entry {
        policy: 0,
        subject: 0,
        object: 0,
    };
    let numbers = 0..objects * objects * policies;
    let entries = numbers.map(|mv| Entry::of(move_at(objects as u8, mv)));
    Bounded::collect(filler, entries).unwrap()
}
