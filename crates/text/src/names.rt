// The names and values of a line, and its count among the lines of its kind, against what the lines
// above declare.
ghost use Rattle.std.specs.Prelude.{◌≡◌};
ghost use Rattle.words.specs.Positions.{word_of};
ghost use Rattle.text.specs.Candidates.{above, its_kind, its_words};
ghost use Rattle.text.specs.Naming.{size_at, under_most, new_check, known_check, term_check, size_check, value_check, name_check, right_names};

use crate::candidate::Candidate;
use crate::fault::SchemeFault;
use lines::role::Role;
use scheme::kind::Kind;
use words::position::Word;
use words::token::Token;

const MAX_SIZE: u8 = 250;

fn check_size(word: Word) -> Result<(), SchemeFault>
    ensures { result ≡ size_check (word_of word.entry) }
{
    match Token::from(word) {
        Token::Number(_, size) if !matches!(size, 1..=MAX_SIZE) => Err(SchemeFault::Range(
            word.spot,
        )),
        _ => Ok(()),
    }
}

// An object's value is below the size of its attribute.
fn check_value(word: Word, size: u8) -> Result<(), SchemeFault>
    ensures { result ≡ value_check size (word_of word.entry) }
{
    match Token::from(word) {
        Token::Number(_, value) if value >= size => Err(SchemeFault::Range(word.spot)),
        _ => Ok(()),
    }
}

impl<'a> Candidate<'a> {
    // A line more of its kind is not above the most.
    pub(crate) fn check_room(self) -> Result<(), SchemeFault>
        ensures { result ≡ under_most (its_kind self.entry) (above self.entry) (its_words self.entry) }
    {
        if self.draft.has_room(self.statement.kind) {
            Ok(())
        } else {
            Err(SchemeFault::Most(self.statement.line.word(0).spot))
        }
    }

    // A new name is not yet used in its kind.
    fn check_new(self, word: Word) -> Result<(), SchemeFault>
        ensures { result ≡ new_check (above self.entry) (its_kind self.entry) (word_of word.entry) }
    {
        match self.draft.find(self.statement.kind, word.bytes) {
            Some(_) => Err(SchemeFault::Used(word.spot)),
            None => Ok(()),
        }
    }

    // The name of an entry is declared above.
    fn check_known(self, kind: Kind, word: Word) -> Result<(), SchemeFault>
        ensures { result ≡ known_check (above self.entry) kind (word_of word.entry) }
    {
        match self.draft.find(kind, word.bytes) {
            Some(_) => Ok(()),
            None => Err(SchemeFault::Undefined(word.spot)),
        }
    }

    // A term names an attribute declared above.
    fn check_term(self, word: Word) -> Result<(), SchemeFault>
        ensures { result ≡ term_check (above self.entry) (word_of word.entry) }
    {
        match Token::from(word) {
            Token::Term(_, _, attribute) if self.draft.find(Kind::Attr, attribute).is_none() => {
                Err(SchemeFault::Undefined(word.spot))
            }
            _ => Ok(()),
        }
    }

    // The size of an attribute; 0 where there is no such attribute: no `Option`, as the definition is total.
    #[tactic(auto, using(crate::proofs::Sizes::size_in, crate::proofs::Sizes::size_past))]
    fn attribute_size(self, attribute: usize) -> u8
        ensures { result ≡ size_at (above self.entry) attribute }
    {
        self.draft
            .attributes()
            .get(attribute)
            .map_or(0, |attribute| attribute.size)
    }

    // The name or the value of the word at an index; the first word names the kind and nothing else.
    fn check_name(self, index: usize, word: Word) -> Result<(), SchemeFault>
        ensures { result ≡ name_check (above self.entry) (its_kind self.entry) (its_words self.entry) index (word_of word.entry) }
    {
        if index == 0 {
            return Ok(());
        }
        match self.statement.role(index) {
            Role::NewName => self.check_new(word),
            Role::Known(kind) => self.check_known(kind, word),
            Role::Size => check_size(word),
            Role::Value => check_value(word, self.attribute_size(index.saturating_sub(2))),
            Role::Term(_) => self.check_term(word),
            Role::Comparison | Role::Amount | Role::Key(_) => Ok(()),
        }
    }

    // Each name and value of the line, from the left.
    pub(crate) fn check_names(self) -> Result<(), SchemeFault>
        ensures { result ≡ right_names (above self.entry) (its_kind self.entry) (its_words self.entry) }
    {
        for (index, word) in self.statement.line.words().enumerate() {
            self.check_name(index, word)?;
        }
        Ok(())
    }
}
