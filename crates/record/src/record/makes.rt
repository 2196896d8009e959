// The record of a draft.
ghost use Rattle.std.specs.Prelude.{◌≡◌, if◌then◌else◌, Some, None};
ghost use Rattle.std.specs.Option.{option_map};
ghost use Rattle.bounded.specs.Items.{items};
ghost use Rattle.scheme.specs.Models.{bare_model};
ghost use Rattle.scheme.specs.Sizes.{sizes_of};
ghost use Rattle.scheme.specs.Drafts.{draft_of};
ghost use Rattle.record.specs.Numberings.{state_of};
ghost use Rattle.record.specs.Systems.{start_state};
ghost use Rattle.record.specs.Accepted.{accepted};
ghost use Rattle.record.specs.Schemes.{scheme_of};

use super::Scheme;
use crate::moves::table::moves_of;
use crate::numbering::{Numbering, State};
use bounded::Bounded;
use codes::ObjectState;
use scheme::draft::Draft;

fn sizes_in(draft: &Draft) -> Bounded<u8, 4>
    ensures { items result ≡ sizes_of (draft_of draft.now) }
{
    let attributes = draft.attributes();
    Bounded::collect(0, attributes.iter().map(|attribute| attribute.size)).unwrap()
}

// Every object is there, with the values of its line.
fn start_in(draft: &Draft) -> State
    ensures { state_of result ≡ start_state (draft_of draft.now) }
{
    let there = draft
        .objects()
        .iter()
        .map(|object| ObjectState::There(object.values));
    Bounded::collect(ObjectState::Absent, there).unwrap()
}

impl Scheme {
    // A draft as a scheme; none where it is not well-formed or has too many states.
    pub fn of(draft: Draft) -> Option<Scheme>
        ensures { option_map scheme_of result ≡ (if accepted (draft_of draft) then Some (draft_of draft) else None) }
    {
        if !draft.is_well_formed() {
            return None;
        }
        let objects = draft.objects().len();
        let policies = draft.policies().len();
        let numbering = Numbering::of(sizes_in(&draft), objects)?;
        let start = numbering.number(&start_in(&draft))?;
        let moves = moves_of(objects as u32, policies as u32);
        Some(Scheme {
            draft,
            numbering,
            start,
            moves,
        })
    }

    // Nothing is declared: one state, no move.
    pub fn bare() -> Scheme
        ensures { scheme_of result ≡ bare_model }
    {
        Scheme::of(Draft::new()).unwrap()
    }

    // What the scheme declares.
    pub fn draft(&self) -> &Draft
        ensures { draft_of result.now ≡ scheme_of self.now }
    {
        &self.draft
    }
}
