// The role of each word of a line, and the forms that a role allows.
ghost use Rattle.std.specs.Prelude.{◌≡◌};
ghost use Rattle.words.specs.Cuts.{line_words};
ghost use Rattle.words.specs.Tokens.{token_form};
ghost use Rattle.lines.specs.Roles.{if_role, do_role, role_at, a_name, a_number, a_term, a_comparison, a_dash, a_word, instead_fits, key_fits, fits as fits_role};

use super::{Instead, Key, Role};
use crate::statement::Statement;
use scheme::kind::Kind;
use words::token::{Operator, Token};

// The role of the word at an index from 1 in an `if` line of `count` words.
fn if_role(count: usize, index: usize) -> Role
    ensures { result ≡ if_role count index }
{
    match (count, index) {
        (_, 1) => Role::Term(Instead::Nothing),
        (3, _) => Role::Key(Key::Test),
        (_, 2) => Role::Comparison,
        _ => Role::Term(Instead::Number),
    }
}

// The same in a `do` line, where the verb decides what stands behind it.
fn do_role(verb: &[u8], count: usize, index: usize) -> Role
    ensures { result ≡ do_role verb.now count index }
{
    match (count, index) {
        (3, 1) => Role::Key(Key::Destroy),
        (3, _) => Role::Key(Key::Party),
        (_, 1) => Role::Term(Instead::Nothing),
        (_, 2) => Role::Key(Key::Verb),
        _ if verb == b"to".as_slice() => Role::Term(Instead::NumberOrDash),
        _ => Role::Amount,
    }
}

impl<'a> Statement<'a> {
    // The role of the word at an index from 1.
    pub fn role(self, index: usize) -> Role
        ensures { result ≡ role_at self.entry.kind (line_words self.entry.line) index }
    {
        match (self.kind, index) {
            (Kind::Right, _) | (Kind::Attr | Kind::Object | Kind::Policy, 1) => Role::NewName,
            (Kind::Attr, _) => Role::Size,
            (Kind::Object, _) => Role::Value,
            (Kind::Policy, _) | (Kind::Query, 3) => Role::Known(Kind::Right),
            (Kind::Query, _) => Role::Known(Kind::Object),
            (Kind::If, _) => if_role(self.line.count_words(), index),
            (Kind::Do, _) => do_role(self.line.word(2).bytes, self.line.count_words(), index),
        }
    }
}

fn is_name(token: Token) -> bool
    ensures { result ≡ a_name (token_form token.entry) }
{
    matches!(token, Token::Name(_))
}

fn is_number(token: Token) -> bool
    ensures { result ≡ a_number (token_form token.entry) }
{
    matches!(token, Token::Number(..))
}

fn is_term(token: Token) -> bool
    ensures { result ≡ a_term (token_form token.entry) }
{
    matches!(token, Token::Term(..))
}

fn is_comparison(token: Token) -> bool
    ensures { result ≡ a_comparison (token_form token.entry) }
{
    matches!(token, Token::Operator(_, Operator::Compare(_)))
}

fn is_dash(token: Token) -> bool
    ensures { result ≡ a_dash (token_form token.entry) }
{
    matches!(token, Token::Operator(_, Operator::Dash))
}

fn is_key_word(token: Token, text: &[u8]) -> bool
    ensures { result ≡ a_word text.now (token_form token.entry) }
{
    match token {
        Token::Name(word) => word.bytes == text,
        _ => false,
    }
}

impl Instead {
    fn fits(self, token: Token) -> bool
        ensures { result ≡ instead_fits self (token_form token.entry) }
    {
        match self {
            Instead::Nothing => false,
            Instead::Number => is_number(token),
            Instead::NumberOrDash => is_number(token) || is_dash(token),
        }
    }
}

impl Key {
    fn fits(self, token: Token) -> bool
        ensures { result ≡ key_fits self (token_form token.entry) }
    {
        match self {
            Key::Test => is_key_word(token, b"null") || is_key_word(token, b"set"),
            Key::Verb => is_key_word(token, b"to")
                || is_key_word(token, b"add")
                || is_key_word(token, b"sub"),
            Key::Destroy => is_key_word(token, b"destroy"),
            Key::Party => is_key_word(token, b"s") || is_key_word(token, b"o"),
        }
    }
}

impl Role {
    // Whether a word of this role may have this form.
    pub(crate) fn fits(self, token: Token) -> bool
        ensures { result ≡ fits_role self (token_form token.entry) }
    {
        match self {
            Role::NewName | Role::Known(_) => is_name(token),
            Role::Size | Role::Amount => is_number(token),
            Role::Value => is_number(token) || is_dash(token),
            Role::Term(instead) => is_term(token) || instead.fits(token),
            Role::Comparison => is_comparison(token),
            Role::Key(key) => key.fits(token),
        }
    }
}
