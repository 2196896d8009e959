// A scheme that is being read: what the lines so far declare.
ghost use Rattle.scheme.specs.Tables.{Fits};

use crate::entries::{Attribute, Object, Query};
use crate::names::Name;
use crate::policies::Policies;
use bounded::Bounded;

#[derive(Clone, Copy)]
pub struct Draft {
    attributes: Bounded<Attribute, 4>,
    rights: Bounded<Name, 16>,
    objects: Bounded<Object, 8>,
    policies: Policies,
    queries: Bounded<Query, 16>,
    ghost fits: { Fits policies },
}

mod checks;
mod declares;
mod reads;
