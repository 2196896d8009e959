// A move of a scheme: the use of a policy on a subject and an object.
ghost use Rattle.record.specs.Moves.{InScheme};
ghost use Rattle.record.specs.Schemes.{scheme_of};

use super::Scheme;
use crate::moves::Move;

#[derive(Clone, Copy)]
pub(crate) struct Use<'a> {
    pub(crate) scheme: &'a Scheme,
    pub(crate) mv: Move,
    ghost within: { InScheme (scheme_of scheme.now) mv },
}
