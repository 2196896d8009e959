// The scheme record: what is declared, with what follows from it for states and moves.
ghost use Rattle.std.specs.Prelude.{◌≡◌, ◌<◌, true, map};
ghost use Rattle.std.specs.List.{range_with_len};
ghost use Rattle.bounded.specs.Items.{items};
ghost use Rattle.scheme.specs.Sizes.{sizes_of};
ghost use Rattle.scheme.specs.Counts.{state_count, move_count};
ghost use Rattle.scheme.specs.Drafts.{draft_of};
ghost use Rattle.scheme.specs.WellFormed.{well_formed};
ghost use Rattle.codes.specs.Meanings.{sizes_in};
ghost use Rattle.record.specs.States.{number};
ghost use Rattle.record.specs.Numberings.{dimensions_of};
ghost use Rattle.record.specs.Moves.{move_at};
ghost use Rattle.record.specs.Entries.{unpacked};
ghost use Rattle.record.specs.Systems.{object_count, start_state, Step};

use crate::moves::table::Entry;
use crate::numbering::Numbering;
use bounded::Bounded;
use scheme::draft::Draft;

#[derive(Clone, Copy)]
pub struct Scheme {
    draft: Draft,
    numbering: Numbering,
    start: u32,
    moves: Bounded<Entry, 2048>,
    ghost formed: { well_formed (draft_of draft) ≡ true },
    ghost sized: { sizes_in numbering.codes ≡ sizes_of (draft_of draft) },
    ghost numbered: { (dimensions_of numbering).objects ≡ object_count (draft_of draft) },
    ghost started: { start ≡ number (sizes_of (draft_of draft)) (start_state (draft_of draft)) },
    ghost listed: { map unpacked (items moves) ≡ map (move_at (object_count (draft_of draft))) (range_with_len 0 (move_count (draft_of draft))) },
    ghost begun: { start < state_count (draft_of draft) },
    ghost closed: { (s : Step (draft_of draft)) → s.to < state_count (draft_of draft) },
}

mod makes;
mod states;
mod steps;
pub mod system;
mod uses;
