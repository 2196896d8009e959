// What a word of a line stands for by itself. A word of another form stands for something all the
// same, as in the definitions; no such line is read.
ghost use Rattle.std.specs.Prelude.{◌≡◌};
ghost use Rattle.bounded.specs.Items.{items};
ghost use Rattle.words.specs.Positions.{word_of};
ghost use Rattle.text.specs.Declaring.{name_in, number_in, value_in, comparison_in, party_in};

use bounded::Bounded;
use scheme::names::Name;
use scheme::terms::{Comparison, Party};
use words::position::Word;
use words::token::{Operator, Token};

// The name that a word is; a word of another form is the empty one.
#[tactic(auto, using(crate::proofs::Copying::name_copied))]
pub(crate) fn name_of(word: Word) -> Name
    ensures { items result ≡ name_in (word_of word.entry) }
{
    match Token::from(word) {
        Token::Name(name) => Bounded::from_slice(name.bytes, 0).unwrap_or(Bounded::new(0)),
        _ => Bounded::new(0),
    }
}

// The value that a word is; a word that is no number is null.
pub(crate) fn value_of(word: Word) -> Option<u8>
    ensures { result ≡ value_in (word_of word.entry) }
{
    match Token::from(word) {
        Token::Number(_, number) => Some(number),
        _ => None,
    }
}

// The number that a word is; a word of another form is 0.
pub(crate) fn number_of(word: Word) -> u8
    ensures { result ≡ number_in (word_of word.entry) }
{
    value_of(word).unwrap_or(0)
}

pub(crate) fn comparison_of(word: Word) -> Comparison
    ensures { result ≡ comparison_in (word_of word.entry) }
{
    match Token::from(word) {
        Token::Operator(_, Operator::Compare(comparison)) => comparison,
        _ => Comparison::Equal,
    }
}

pub(crate) fn party_of(word: Word) -> Party
    ensures { result ≡ party_in (word_of word.entry) }
{
    match word.bytes {
        b"s" => Party::Subject,
        _ => Party::Object,
    }
}
