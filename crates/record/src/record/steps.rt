// The steps and the labels of moves.
ghost use Rattle.std.specs.Prelude.{◌≡◌, ℕ, ◌<◌, ◌≢◌, Some, IfSome};
ghost use Rattle.std.specs.Option.{option_map};
ghost use Rattle.scheme.specs.Models.{policy_of};
ghost use Rattle.scheme.specs.Sizes.{sizes_of};
ghost use Rattle.scheme.specs.Counts.{state_count};
ghost use Rattle.enforcement.specs.Coded.{enforced_pair};
ghost use Rattle.record.specs.States.{number, state_from};
ghost use Rattle.record.specs.Numberings.{pair_at};
ghost use Rattle.record.specs.Moves.{move_of, IsMove};
ghost use Rattle.record.specs.Systems.{object_count, policy_at, state_after, step_of, label_of};
ghost use Rattle.record.specs.Relation.{Steps};
ghost use Rattle.record.specs.Schemes.{scheme_of};
ghost use Rattle.record.specs.Uses.{sizes_in, policy_in};

use super::Scheme;
use super::uses::Use;
use crate::moves::Move;
use enforcement::{Pair, enforce};
use protection::Permission;
use scheme::entries::Policy;

impl<'a> Use<'a> {
    fn policy(&self) -> &'a Policy
        ensures { policy_of result.now ≡ policy_in self.now }
    {
        &self.scheme.draft.policies()[self.mv.policy as usize]
    }

    // The codes of the subject and the object in a state.
    fn codes_in(&self, state: u32) -> Pair
        ensures { result ≡ pair_at (sizes_in self.now) state self.now.mv.subject self.now.mv.object }
    {
        let numbering = &self.scheme.numbering;
        Pair {
            subject: numbering.code_at(state, self.mv.subject),
            object: numbering.code_at(state, self.mv.object),
        }
    }

    // What the policy makes of two codes.
    fn enforce(&self, before: Pair) -> Option<Pair>
        ensures { result ≡ enforced_pair (sizes_in self.now) (policy_in self.now).predicates (policy_in self.now).actions before }
    {
        let policy = self.policy();
        enforce(
            self.scheme.numbering.codes(),
            policy.predicates.as_slice(),
            policy.actions.as_slice(),
            before,
        )
    }

    // The state after a move of two different objects; none where its policy cannot be enforced. The
    // two objects concerned are read and replaced in the state's number.
    fn apply(&self, state: u32) -> Option<u32>
        requires state { state < state_count (scheme_of self.now.scheme.now) }
        requires apart { self.now.mv.subject ≢ self.now.mv.object }
        ensures { result ≡ option_map (number (sizes_of (scheme_of self.now.scheme.now))) (state_after (scheme_of self.now.scheme.now) self.now.mv (state_from (sizes_of (scheme_of self.now.scheme.now)) (object_count (scheme_of self.now.scheme.now)) state)) }
    {
        let Move {
            subject,
            object,
            ..
        } = self.mv;
        let before = self.codes_in(state);
        let after = self.enforce(before)?;
        let numbering = &self.scheme.numbering;
        let half = numbering.exchange(state, subject, before.subject, after.subject);
        Some(numbering.exchange(half, object, before.object, after.object))
    }
}

impl Scheme {
    // The use that a move is; none where there is no such move.
    fn use_of(&self, mv: u32) -> Option<Use<'_>>
        ensures value { option_map (λ (u : Use). u.mv) result ≡ move_of (scheme_of self.now) mv }
        ensures here { IfSome result (λ (u : Use). u.scheme.now ≡ self.now) }
    {
        let entry = *self.moves.as_slice().get(mv as usize)?;
        Some(Use {
            scheme: self,
            mv: entry.unpacked(),
        })
    }

    fn next_state(&self, state: u32, mv: u32) -> Option<u32>
        ensures { result ≡ step_of (scheme_of self.now) state mv }
    {
        if state >= self.numbering.states() {
            return None;
        }
        let this_use = self.use_of(mv)?;
        if this_use.mv.subject == this_use.mv.object {
            return None;
        }
        this_use.apply(state)
    }

    // The state that a move leads to; none where there is no such state or move, or the move's policy
    // cannot be enforced in that state. `agrees`: there is a step exactly where enforcement succeeds,
    // and it leads to that state.
    pub fn step(&self, state: u32, mv: u32) -> Option<u32>
        ensures value { result ≡ step_of (scheme_of self.now) state mv }
        ensures agrees { Steps (scheme_of self.now) state mv result }
    {
        self.next_state(state, mv)
    }

    fn label_at(&self, mv: u32) -> Option<Permission>
        ensures { result ≡ label_of (scheme_of self.now) mv }
    {
        let this_use = self.use_of(mv)?;
        Some(Permission {
            subject: this_use.mv.subject,
            object: this_use.mv.object,
            right: this_use.policy().right,
        })
    }

    // The permission that a move is a use of. `numbered`: the move of a policy on a subject and an object is
    // labelled with these two and the policy's right.
    pub fn label(&self, mv: u32) -> Option<Permission>
        ensures value { result ≡ label_of (scheme_of self.now) mv }
        ensures numbered { (p s o : ℕ) → IsMove (scheme_of self.now) mv p s o → result ≡ Some (record { subject = s; object = o; right = (policy_at (scheme_of self.now) p).right }) }
    {
        self.label_at(mv)
    }
}
