// What a draft declares so far.
ghost use Rattle.std.specs.Prelude.{◌≡◌, ◌<◌, ◌≤◌, map, length, IfSome};
ghost use Rattle.bounded.specs.Items.{items};
ghost use Rattle.scheme.specs.Names.{index_of};
ghost use Rattle.scheme.specs.Models.{attribute_of, object_of, policy_of, bare_model, names_of, room_for};
ghost use Rattle.scheme.specs.Drafts.{draft_of};

use super::Draft;
use crate::entries::{Attribute, Object, Policy, Query};
use crate::kind::Kind;
use crate::names::{Name, find};
use crate::policies::Policies;
use bounded::Bounded;

impl Draft {
    // Nothing is declared yet.
    pub fn new() -> Draft
        ensures { draft_of result ≡ bare_model }
    {
        let name = Bounded::new(0);
        Draft {
            attributes: Bounded::new(Attribute { name, size: 0 }),
            rights: Bounded::new(name),
            objects: Bounded::new(Object {
                name,
                values: Bounded::new(None),
            }),
            policies: Policies::new(),
            queries: Bounded::new(Query {
                subject: 0,
                object: 0,
                right: 0,
            }),
        }
    }

    pub fn attributes(&self) -> &[Attribute]
        ensures list { map attribute_of result.now ≡ (draft_of self.now).attributes }
        ensures few { length result.now ≤ 4 }
    {
        self.attributes.as_slice()
    }

    pub fn rights(&self) -> &[Name]
        ensures list { map items result.now ≡ (draft_of self.now).rights }
        ensures few { length result.now ≤ 16 }
    {
        self.rights.as_slice()
    }

    pub fn objects(&self) -> &[Object]
        ensures list { map object_of result.now ≡ (draft_of self.now).objects }
        ensures few { length result.now ≤ 8 }
    {
        self.objects.as_slice()
    }

    pub fn policies(&self) -> &[Policy]
        ensures list { map policy_of result.now ≡ (draft_of self.now).policies }
        ensures few { length result.now ≤ 32 }
    {
        self.policies.as_slice()
    }

    pub fn queries(&self) -> &[Query]
        ensures list { result.now ≡ (draft_of self.now).queries }
        ensures few { length result.now ≤ 16 }
    {
        self.queries.as_slice()
    }

    // Whether there may be one entry more of this kind; clauses count in the policy opened last.
    pub fn has_room(&self, kind: Kind) -> bool
        ensures { result ≡ room_for kind (draft_of self.now) }
    {
        match kind {
            Kind::Attr => self.attributes.has_room(),
            Kind::Right => self.rights.has_room(),
            Kind::Object => self.objects.has_room(),
            Kind::Policy => self.policies.has_room(),
            Kind::If => self
                .policies()
                .last()
                .is_some_and(|policy| policy.predicates.has_room()),
            Kind::Do => self
                .policies()
                .last()
                .is_some_and(|policy| policy.actions.has_room()),
            Kind::Query => self.queries.has_room(),
        }
    }

    // The number of the entry of this kind with this name.
    pub fn find(&self, kind: Kind, name: &[u8]) -> Option<usize>
        ensures value { result ≡ index_of name.now (names_of kind (draft_of self.now)) }
        ensures few { IfSome result (λ i. i < 32) }
    {
        match kind {
            Kind::Attr => find(self.attributes(), name),
            Kind::Right => find(self.rights(), name),
            Kind::Object => find(self.objects(), name),
            Kind::Policy => find(self.policies(), name),
            Kind::If | Kind::Do | Kind::Query => None,
        }
    }
}
