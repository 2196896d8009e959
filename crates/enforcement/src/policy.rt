// A policy on a subject and an object.
ghost use Rattle.std.specs.Prelude.{◌≡◌};
ghost use Rattle.codes.specs.Meanings.{sizes_in};
ghost use Rattle.enforcement.specs.Coded.{enforced_pair};

use crate::pair::Pair;
use crate::parties::CodedPair;
use codes::{ABSENT, Codes};
use scheme::terms::{Action, Predicate};

// The pair after the policy with these predicates and actions; none where it is not enforced: an
// object is absent, a predicate does not hold beforehand, or an action fails.
pub fn enforce(
    codes: &Codes,
    predicates: &[Predicate],
    actions: &[Action],
    pair: Pair,
) -> Option<Pair>
    ensures { result ≡ enforced_pair (sizes_in codes.now) predicates.now actions.now pair }
{
    let radix = codes.radix();
    if pair.subject >= radix || pair.object >= radix {
        return None;
    }
    let parties = CodedPair { codes, pair };
    if pair.subject == ABSENT || pair.object == ABSENT || !parties.all_hold(predicates) {
        return None;
    }
    parties.run(actions)
}
