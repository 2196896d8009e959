// Which form a word has.
ghost use Rattle.std.specs.Prelude.{◌≡◌};
ghost use Rattle.std.specs.Option.{option_map};
ghost use Rattle.words.specs.Forms.{name_byte, is_name, number_in, operator_in, term_in};
ghost use Rattle.words.specs.Positions.{word_of};
ghost use Rattle.words.specs.Tokens.{term_of, form_of, token_form, token_word};

use crate::position::Word;
use crate::token::{Operator, Token};
use scheme::terms::{Comparison, Party};

const MAX_NAME: usize = 15;

// The most digits that a number up to 255 has.
const MAX_DIGITS: usize = 3;

fn is_name_byte(b: u8) -> bool
    ensures { result ≡ name_byte b }
{
    b.is_ascii_lowercase() || b.is_ascii_digit() || b == b'_'
}

fn is_name(word: &[u8]) -> bool
    ensures { result ≡ is_name word.now }
{
    match word {
        [first, rest @ ..] => first.is_ascii_lowercase()
            && rest.len() < MAX_NAME
            && rest.iter().all(|b| is_name_byte(*b)),
        [] => false,
    }
}

// The number that a word writes: 0 to 255 without leading zeros. `parse` takes leading zeros and a plus too:
// the pattern keeps them out. A longer word is not gone through.
fn number_in(word: &[u8]) -> Option<u8>
    ensures { result ≡ number_in word.now }
{
    match word {
        [b'0'] => Some(0),
        [b'1'..=b'9', rest @ ..] if rest.len() < MAX_DIGITS => {
            str::from_utf8(word).ok()?.parse().ok()
        }
        _ => None,
    }
}

fn operator_in(word: &[u8]) -> Option<Operator>
    ensures { result ≡ operator_in word.now }
{
    match word {
        b"=" => Some(Operator::Compare(Comparison::Equal)),
        b"<" => Some(Operator::Compare(Comparison::Less)),
        b">" => Some(Operator::Compare(Comparison::Greater)),
        b"-" => Some(Operator::Dash),
        b"!=" => Some(Operator::Compare(Comparison::NotEqual)),
        b"<=" => Some(Operator::Compare(Comparison::AtMost)),
        b">=" => Some(Operator::Compare(Comparison::AtLeast)),
        _ => None,
    }
}

// The party and the attribute's name of a term.
fn term_in<'a>(word: &'a [u8]) -> Option<(Party, &'a [u8])>
    ensures { option_map term_of result ≡ term_in word.now }
{
    let [party, dot, name @ ..] = word else {
        return None;
    };
    if *dot != b'.' || !is_name(name) {
        return None;
    }
    match *party {
        b's' => Some((Party::Subject, name)),
        b'o' => Some((Party::Object, name)),
        _ => None,
    }
}

// The token that a word is.
impl<'a> From<Word<'a>> for Token<'a> {
    ghost from_gives = { λ w t. (token_form t ≡ form_of w.bytes.now) × (token_word t ≡ word_of w) };

    fn from(word: Word<'a>) -> Token<'a> {
        if is_name(word.bytes) {
            return Token::Name(word);
        }
        if let Some(n) = number_in(word.bytes) {
            return Token::Number(word, n);
        }
        if let Some((party, name)) = term_in(word.bytes) {
            return Token::Term(word, party, name);
        }
        if let Some(operator) = operator_in(word.bytes) {
            return Token::Operator(word, operator);
        }
        Token::Other(word)
    }
}
