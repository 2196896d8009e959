// The two loops of the search: over the listed states, and over the moves of one of them.
ghost use Rattle.std.specs.Prelude.{◌≡◌, ◌<◌, ◌≤◌, length, Some, None};
ghost use Rattle.walk.specs.Search.{search_from};
ghost use Rattle.walk.specs.Results.{ending_of, found_of, witness_of, marks_of, over};
ghost use Rattle.walk.specs.Listings.{SameTables, Begun, At, Ends, Passes, Halted};

use super::interface::{Goal, Walk};
use super::listing::Listing;
use super::records::{Ending, Found};
use super::trace::write_witness;

// What is searched, and for what.
#[derive(Drop)]
pub(crate) struct Search<'a, W, G> {
    pub(crate) walk: &'a W,
    pub(crate) goal: &'a G,
}

impl<W: Walk, G: Goal> Search<'_, W, G> {
    // The whole search, over marks and a found table of as many entries as there are states.
    pub(crate) fn run(&self, marks: &mut [u32], table: &mut [Found], witness: &mut [u32]) -> Ending
        requires marks_size { length marks.old ≡ (W.Walk.model self.now.walk.now).states }
        requires table_size { length table.old ≡ (W.Walk.model self.now.walk.now).states }
        requires witness_size { (W.Walk.model self.now.walk.now).states ≤ length witness.old }
        ensures ending { result ≡ ending_of (search_from (W.Walk.model self.now.walk.now) (G.Goal.stops self.now.goal.now)) }
        ensures marks { marks.new ≡ marks_of (W.Walk.model self.now.walk.now).states (found_of (search_from (W.Walk.model self.now.walk.now) (G.Goal.stops self.now.goal.now))) }
        ensures table { table.new ≡ over (found_of (search_from (W.Walk.model self.now.walk.now) (G.Goal.stops self.now.goal.now))) table.old }
        ensures witness { witness.new ≡ over (witness_of (search_from (W.Walk.model self.now.walk.now) (G.Goal.stops self.now.goal.now))) witness.old }
    {
        let mut listing = Listing::begin(marks, table, self.walk.start());
        self.take_states(&mut listing, witness)
    }

    // Takes the listed states in turn, until a move ends the search; then writes the witness.
    fn take_states(&self, listing: &mut Listing<'_, '_>, witness: &mut [u32]) -> Ending
        requires begun { Begun (W.Walk.model self.now.walk.now) (G.Goal.stops self.now.goal.now) listing.old }
        requires room { (W.Walk.model self.now.walk.now).states ≤ length witness.old }
        ensures same_marks { listing.new.marks.ghost_name ≡ listing.old.marks.ghost_name }
        ensures same_table { listing.new.table.ghost_name ≡ listing.old.table.ghost_name }
        ensures ending { result ≡ ending_of (search_from (W.Walk.model self.now.walk.now) (G.Goal.stops self.now.goal.now)) }
        ensures tables { Halted (W.Walk.model self.now.walk.now) (G.Goal.stops self.now.goal.now) listing.old listing.new }
        ensures witness { witness.new ≡ over (witness_of (search_from (W.Walk.model self.now.walk.now) (G.Goal.stops self.now.goal.now))) witness.old }
    {
        let moves = self.walk.moves() as u64;
        let mut place: u32 = 0;
        let mut tried: u64 = 0;
        // no `for`, since the list grows while it is gone through
        while place < listing.count {
            if let Some(mv) = self.try_moves(listing, place) {
                let found = listing.count;
                let length = write_witness(listing.found(), place, mv, witness);
                return Ending::Stopped {
                    found,
                    tried: tried + mv as u64 + 1,
                    length,
                };
            }
            tried += moves;
            place += 1;
        }
        Ending::Exhausted {
            found: listing.count,
            tried,
        }
    }

    // Tries the moves in the state at a place, up to one that ends the search, and lists the
    // states that they lead to.
    fn try_moves(&self, listing: &mut Listing<'_, '_>, place: u32) -> Option<u32>
        requires searching { At (W.Walk.model self.now.walk.now) (G.Goal.stops self.now.goal.now) listing.old place }
        requires here { place < listing.old.count }
        ensures same { SameTables listing.old listing.new }
        ensures answer { elim result [
          | Some mv ↦ Ends (W.Walk.model self.now.walk.now) (G.Goal.stops self.now.goal.now) listing.old listing.new place mv
          | None ↦ Passes (W.Walk.model self.now.walk.now) (G.Goal.stops self.now.goal.now) listing.old listing.new place
        ] }
    {
        let state = listing.found()[place as usize].state;
        for mv in 0..self.walk.moves() {
            if let Some(next) = self.walk.step(state, mv) {
                if self.goal.is_met(mv) {
                    return Some(mv);
                }
                listing.note_next(next, place, mv);
            }
        }
        None
    }
}
