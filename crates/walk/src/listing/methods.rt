// How a search lists states.
ghost use Rattle.std.specs.Prelude.{◌≡◌, ◌<◌, ◌≤◌, false, length, drop, replicate, Some, slice_set};
ghost use Rattle.walk.specs.Search.{entry, listed, with_next};
ghost use Rattle.walk.specs.Listings.{so_far, SameTables};

use super::Listing;
use crate::records::Found;

impl<'m, 't> Listing<'m, 't> {
    // Lists the start state alone.
    pub(crate) fn begin(marks: &'m mut [u32], table: &'t mut [Found], start: u32) -> Self
        requires start { start < length marks.old }
        requires room { 0 < length table.old }
        ensures same_marks { result.marks.ghost_name ≡ marks.entry.ghost_name }
        ensures same_table { result.table.ghost_name ≡ table.entry.ghost_name }
        ensures marks { result.marks.now ≡ slice_set (replicate (length marks.old) 0) start 1 }
        ensures table { result.table.now ≡ slice_set table.old 0 (entry start 0 0) }
        ensures count { result.count ≡ 1 }
    {
        marks.fill(0);
        marks[start as usize] = 1;
        table[0] = Found {
            state: start,
            parent: 0,
            mv: 0,
        };
        Listing {
            marks,
            table,
            count: 1,
        }
    }

    // The states listed so far.
    pub(crate) fn found(&self) -> &[Found]
        ensures { result.now ≡ so_far self.now }
    {
        &self.table[..self.count as usize]
    }

    // Lists the state that a move leads to, unless it is listed.
    pub(crate) fn note_next(&mut self, next: u32, place: u32, mv: u32)
        requires below { next < length self.old.marks.now }
        requires small { length self.old.table.now ≤ 1048576 }
        requires room { listed (so_far self.old) next ≡ false → self.old.count < length self.old.table.now }
        ensures same { SameTables self.old self.new }
        ensures list { so_far self.new ≡ with_next (so_far self.old) place mv (Some next) }
        ensures rest { drop self.new.count self.new.table.now ≡ drop self.new.count self.old.table.now }
        ensures grows { self.old.count ≤ self.new.count }
    {
        if self.marks[next as usize] != 0 {
            return;
        }
        self.table[self.count as usize] = Found {
            state: next,
            parent: place,
            mv,
        };
        self.marks[next as usize] = self.count + 1;
        self.count += 1;
    }
}
