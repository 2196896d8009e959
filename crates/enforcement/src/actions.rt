// What an action makes of a subject and an object; none where it fails.
ghost use Rattle.std.specs.Prelude.{◌≡◌};
ghost use Rattle.codes.specs.Objects.{read_at};
ghost use Rattle.enforcement.specs.Parties.{party_in};
ghost use Rattle.enforcement.specs.Actions.{source_of, stored, destroyed, acted, ran};
ghost use Rattle.enforcement.specs.Meanings.{sizes_of, parties_of, after};

use crate::pair::Pair;
use crate::parties::CodedPair;
use codes::ABSENT;
use scheme::terms::{Action, Operand, Party, Term};

impl<'a> CodedPair<'a> {
    // The present value, or null, of a term; none where its object is absent.
    pub(crate) fn read(&self, term: Term) -> Option<Option<u8>>
        ensures { result ≡ read_at (party_in term.party (parties_of self.now)) term.attribute }
    {
        self.codes.read(self.pair.of(term.party), term.attribute)
    }

    pub(crate) fn source(&self, operand: Operand) -> Option<Option<u8>>
        ensures { result ≡ source_of operand (parties_of self.now) }
    {
        match operand {
            Operand::SubjectAttribute(attribute) => self.codes.read(self.pair.subject, attribute),
            Operand::ObjectAttribute(attribute) => self.codes.read(self.pair.object, attribute),
            Operand::Constant(value) => Some(Some(value)),
        }
    }

    // The term gets a value or null.
    fn store(&self, term: Term, value: Option<u8>) -> Option<Pair>
        ensures { result ≡ after self.now (λ p. stored (sizes_of self.now) term p value) }
    {
        let old = self.pair.of(term.party);
        let code = self.codes.update(old, term.attribute, value)?;
        Some(self.pair.with(term.party, code))
    }

    fn destroy(&self, party: Party) -> Option<Pair>
        ensures { result ≡ after self.now (destroyed party) }
    {
        if self.pair.of(party) == ABSENT {
            return None;
        }
        Some(self.pair.with(party, ABSENT))
    }

    // A sum that is no byte is not below any size.
    fn act(&self, action: Action) -> Option<Pair>
        ensures { result ≡ after self.now (acted (sizes_of self.now) action) }
    {
        match action {
            Action::Assign(term, operand) => self.store(term, self.source(operand)?),
            Action::Clear(term) => self.store(term, None),
            Action::Add(term, amount) => {
                self.store(term, Some(self.read(term)??.checked_add(amount)?))
            }
            Action::Sub(term, amount) => {
                self.store(term, Some(self.read(term)??.checked_sub(amount)?))
            }
            Action::Destroy(party) => self.destroy(party),
        }
    }

    // The actions in order, each on what the one before left.
    pub(crate) fn run(&self, actions: &[Action]) -> Option<Pair>
        ensures { result ≡ after self.now (ran (sizes_of self.now) actions.now) }
    {
        let codes = self.codes;
        let mut pair = self.pair;
        // no `try_fold`, which is no plainer: its closure would have to state that the pair is one of codes
        for action in actions {
            pair = CodedPair { codes, pair }.act(*action)?;
        }
        Some(pair)
    }
}
