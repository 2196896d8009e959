// Whether a draft is well-formed: its objects have values that their attributes allow, and its
// policies are for rights that it declares.
ghost use Rattle.std.specs.Prelude.{◌≡◌, map};
ghost use Rattle.scheme.specs.Models.{object_of, policy_of};
ghost use Rattle.scheme.specs.Drafts.{draft_of};
ghost use Rattle.scheme.specs.WellFormed.{values_fit, objects_fit, rights_fit, well_formed};

use super::Draft;
use crate::entries::{Attribute, Object, Policy, value_fits};

// There is a value or null for each attribute, and no more.
fn values_fit(attributes: &[Attribute], values: &[Option<u8>]) -> bool
    ensures { result ≡ values_fit (map (λ (a : Attribute). a.size) attributes.now) values.now }
{
    values.len() == attributes.len()
        && attributes
            .iter()
            .zip(values)
            .all(|(attribute, value)| value_fits(attribute.size, *value))
}

fn objects_fit(attributes: &[Attribute], objects: &[Object]) -> bool
    ensures { result ≡ objects_fit (map (λ (a : Attribute). a.size) attributes.now) (map object_of objects.now) }
{
    objects
        .iter()
        .all(|object| values_fit(attributes, object.values.as_slice()))
}

// Each policy is for one of so many rights.
fn rights_fit(rights: usize, policies: &[Policy]) -> bool
    ensures { result ≡ rights_fit rights (map policy_of policies.now) }
{
    policies
        .iter()
        .all(|policy| (policy.right as usize) < rights)
}

impl Draft {
    // Whether the start state and the labels of the scheme are within its counts.
    pub fn is_well_formed(&self) -> bool
        ensures { result ≡ well_formed (draft_of self.now) }
    {
        objects_fit(self.attributes(), self.objects())
            && rights_fit(self.rights().len(), self.policies())
    }
}
