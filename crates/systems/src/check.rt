// The test of a table's numbers.
ghost use Rattle.std.specs.Prelude.{◌≡◌, ◌+◌, ◌*◌, ◌^◌, ◌<◌, ◌≤◌, length};
ghost use Rattle.protection.specs.Lowest.{lowest};
ghost use Rattle.protection.specs.Refusals.{numbered};
ghost use Rattle.systems.specs.Refusals.{table_refusal_values};
ghost use Rattle.systems.specs.Tables.{fill_answer, counts_out, lengths_out, label_out, entry_out, permission_at};
ghost use Rattle.systems.specs.TableNumbers.{table_of};

use super::numbers::Numbers;
use super::refusals::TableRefusal;
use protection::Permission;

// The bounds that the interface has for walks and labels. `codes` has the first one for schemes, of which
// this crate knows nothing.
const MAX_STATES: u32 = 1_048_576;

const MAX_MOVES: u32 = 4_096;

const MAX_OBJECTS: u32 = 255;

const MAX_RIGHTS: u32 = 255;

impl Numbers<'_> {
    // Refuses with the first refusal that applies.
    #[tactic(auto, unfolding(crate::specs::Tables::refusal))]
    pub(crate) fn check(&self) -> Result<(), TableRefusal>
        ensures { numbered table_refusal_values result ≡ fill_answer (table_of self.now) }
    {
        if self.are_counts_out() {
            return Err(TableRefusal::Counts);
        }
        if self.are_lengths_out() {
            return Err(TableRefusal::Lengths);
        }
        if self.start >= self.states {
            return Err(TableRefusal::Start);
        }
        if let Some(mv) = self.first_label_out() {
            return Err(TableRefusal::Label { mv });
        }
        if let Some(place) = self.first_entry_out() {
            return Err(TableRefusal::Entry { place });
        }
        Ok(())
    }

    fn are_counts_out(&self) -> bool
        ensures { result ≡ counts_out self.now.states self.now.moves self.now.objects self.now.rights }
    {
        self.states < 1
            || self.states > MAX_STATES
            || self.moves > MAX_MOVES
            || self.objects > MAX_OBJECTS
            || self.rights > MAX_RIGHTS
    }

    // The lengths are compared in 64 bits, since states times moves may need 33.
    fn are_lengths_out(&self) -> bool
        requires few_states { self.now.states ≤ 1048576 }
        requires few_moves { self.now.moves ≤ 4096 }
        ensures { result ≡ lengths_out self.now.states self.now.moves (length self.now.labels.now) (length self.now.entries.now) }
    {
        self.labels.len() != 3 * self.moves as usize
            || self.entries.len() != self.states as usize * self.moves as usize
    }

    // The first move whose label is out of the counts.
    fn first_label_out(&self) -> Option<u32>
        requires { length self.now.labels.now ≡ 3 * self.now.moves }
        ensures { result ≡ lowest (label_out self.now.objects self.now.rights self.now.labels.now) self.now.moves }
    {
        (0..self.moves).find(
            |mv|
                requires { 3 * mv.now + 2 < length self.now.labels.now }
            { !self.label_at(*mv).is_within(self.objects, self.rights) },
        )
    }

    // The label of a move, for which the list has three numbers.
    pub(crate) fn label_at(&self, mv: u32) -> Permission
        requires { 3 * mv + 2 < length self.now.labels.now }
        ensures { result ≡ permission_at self.now.labels.now mv }
    {
        let first = 3 * mv as usize;
        Permission {
            subject: self.labels[first],
            object: self.labels[first + 1],
            right: self.labels[first + 2],
        }
    }

    // The place of the first entry that is above the count of states.
    fn first_entry_out(&self) -> Option<u32>
        requires { length self.now.entries.now ≤ 2 ^ 32 }
        ensures { result ≡ lowest (entry_out self.now.states self.now.entries.now) (length self.now.entries.now) }
    {
        self.entries
            .iter()
            .position(|entry| *entry > self.states)
            .map(|place| place as u32)
    }
}
