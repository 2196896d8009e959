// The scheme record behind the interface of walks and protection systems.
ghost use Rattle.std.specs.Prelude.{◌≡◌, length};
ghost use Rattle.record.specs.Systems.{walk_of, labels_of};
ghost use Rattle.record.specs.Numbers.{NumbersStates, NumbersMoves, StartsAsDeclared};
ghost use Rattle.record.specs.Schemes.{scheme_of};
ghost use Rattle.record.specs.SystemLaws.{scheme_bounds, scheme_counts};

use super::Scheme;
use protection::{Permission, System};
use walk::Walk;

impl Walk for Scheme {
    ghost model = { λ s. walk_of (scheme_of s) };

    ghost bounds = { λ s. scheme_bounds s };

    // `numbers_the_states`: the numbers of the states are just those below it.
    #[tactic(auto, using(crate::proofs::Dimensions::states_counted))]
    fn states(&self) -> u32
        ensures value { result ≡ (walk_of (scheme_of self.now)).states }
        ensures numbers_the_states { NumbersStates (scheme_of self.now) result }
    {
        self.numbering.states()
    }

    // `as_declared`: in the state that `decode` gives for it, each object is there, with the values of its line.
    #[tactic(auto, using(crate::proofs::Numbered::starts_as_declared))]
    fn start(&self) -> u32
        ensures value { result ≡ (walk_of (scheme_of self.now)).start }
        ensures as_declared { StartsAsDeclared (scheme_of self.now) result }
    {
        self.start
    }

    // `numbers_the_moves`: the numbers of the moves are just those below it.
    #[tactic(auto, using(crate::specs::SystemLaws::moves_counted))]
    fn moves(&self) -> u32
        ensures value { result ≡ (walk_of (scheme_of self.now)).moves }
        ensures numbers_the_moves { NumbersMoves (scheme_of self.now) result }
    {
        self.moves.as_slice().len() as u32
    }

    fn step(&self, state: u32, mv: u32) -> Option<u32> {
        self.step(state, mv)
    }
}

impl System for Scheme {
    ghost labels = { λ s. labels_of (scheme_of s) };

    ghost counts = { λ s. scheme_counts s };

    fn objects(&self) -> u32
        ensures value { result ≡ (labels_of (scheme_of self.now)).objects }
        ensures counts_the_objects { result ≡ length (scheme_of self.now).objects }
    {
        self.draft.objects().len() as u32
    }

    fn rights(&self) -> u32
        ensures value { result ≡ (labels_of (scheme_of self.now)).rights }
        ensures counts_the_rights { result ≡ length (scheme_of self.now).rights }
    {
        self.draft.rights().len() as u32
    }

    fn label(&self, mv: u32) -> Option<Permission> {
        self.label(mv)
    }
}
