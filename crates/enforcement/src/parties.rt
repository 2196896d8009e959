// The subject and the object of a policy: their codes, with what these stand for.
ghost use Rattle.codes.specs.Meanings.{sizes_in};
ghost use Rattle.enforcement.specs.Coded.{Coded};

use crate::pair::Pair;
use codes::Codes;

#[derive(Clone, Copy)]
pub(crate) struct CodedPair<'a> {
    pub(crate) codes: &'a Codes,
    pub(crate) pair: Pair,
    ghost coded: { Coded (sizes_in codes.now) pair },
}
