// What one line of a text declares.

use crate::entries::{Attribute, Object, Query};
use crate::names::Name;
use crate::terms::Clause;

#[derive(Clone, Copy)]
pub enum Declaration {
    Attribute(Attribute),
    Right(Name),
    Object(Object),
    // The next policy, which has no clause yet.
    Policy { name: Name, right: u32 },
    // One clause more of the policy that was declared last.
    Clause(Clause),
    Query(Query),
}
