// The entries that the lines of a text declare.
ghost use Rattle.std.specs.Prelude.{◌≡◌};
ghost use Rattle.bounded.specs.Items.{items};
ghost use Rattle.scheme.specs.WellFormed.{value_fits};

use crate::names::{Name, Named};
use crate::terms::{Action, Predicate};
use bounded::Bounded;

// An attribute of size k has the values 0 to k - 1, and null.
#[derive(Clone, Copy)]
pub struct Attribute {
    pub name: Name,
    pub size: u8,
}

// An object in the start state: for each attribute a value, or none for null.
#[derive(Clone, Copy)]
pub struct Object {
    pub name: Name,
    pub values: Bounded<Option<u8>, 4>,
}

#[derive(Clone, Copy)]
pub struct Policy {
    pub name: Name,
    pub right: u32,
    pub predicates: Bounded<Predicate, 6>,
    pub actions: Bounded<Action, 6>,
}

// A permission that is asked about, by the numbers of its subject, object and right. A type of its own:
// what is declared knows no protection systems, and `record` leads from the one to the other.
#[derive(Clone, Copy)]
pub struct Query {
    pub subject: u32,
    pub object: u32,
    pub right: u32,
}

// Whether an attribute of this size can have it: null, or a value below the size.
pub fn value_fits(size: u8, value: Option<u8>) -> bool
    ensures { result ≡ value_fits size value }
{
    value.is_none_or(|value| value < size)
}

// An `impl` for each kind of entry, each of one line: what they have in common is the trait.

impl Named for Name {
    ghost named = { λ n. items n };

    fn name(&self) -> &[u8] {
        self.as_slice()
    }
}

impl Named for Attribute {
    ghost named = { λ a. items a.name };

    fn name(&self) -> &[u8] {
        self.name.as_slice()
    }
}

impl Named for Object {
    ghost named = { λ o. items o.name };

    fn name(&self) -> &[u8] {
        self.name.as_slice()
    }
}

impl Named for Policy {
    ghost named = { λ p. items p.name };

    fn name(&self) -> &[u8] {
        self.name.as_slice()
    }
}
