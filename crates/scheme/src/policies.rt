// The table of policies, and the clauses that are filled into one of them.
ghost use Rattle.std.specs.Prelude.{◌≡◌, [], ◌∷◌, ◌++◌, length, if◌then◌else◌, is_ok, nat_lt};
ghost use Rattle.bounded.specs.Items.{items};
ghost use Rattle.scheme.specs.Models.{policy_of, opened, has_room, filled, last_room, last_filled};
ghost use Rattle.scheme.specs.Tables.{policies_in, policies_of, Fits};

use crate::entries::Policy;
use crate::names::Name;
use crate::terms::{Action, Clause, Party, Predicate, Term};
use bounded::{Bounded, Full};

const MAX_POLICIES: usize = 32;

// The first `len` rows are the policies, in order. A plain table: that it fits is a fact of the draft
// that holds it.
#[derive(Clone, Copy)]
pub struct Policies {
    rows: [Policy; MAX_POLICIES],
    len: usize,
}

impl Policies {
    // No policy yet.
    pub(crate) fn new() -> Policies
        ensures fits { Fits result }
        ensures empty { policies_in result ≡ [] }
    {
        let filler = Policy::without_clauses(Bounded::new(0), 0);
        Policies {
            rows: [filler; MAX_POLICIES],
            len: 0,
        }
    }

    pub(crate) fn as_slice(&self) -> &[Policy]
        requires { Fits self.now }
        ensures { result.now ≡ policies_in self.now }
    {
        &self.rows[..self.len]
    }

    pub(crate) fn has_room(&self) -> bool
        requires { Fits self.now }
        ensures { result ≡ nat_lt (length (policies_in self.now)) 32 }
    {
        self.len < MAX_POLICIES
    }

    // One policy more at the end; refused where the table is full.
    pub(crate) fn push(&mut self, policy: Policy) -> Result<(), Full>
        requires { Fits self.old }
        ensures fits { Fits self.new }
        ensures room { is_ok result ≡ nat_lt (length (policies_in self.old)) 32 }
        ensures after { policies_in self.new ≡ (if is_ok result
            then policies_in self.old ++ policy ∷ [] else policies_in self.old) }
    {
        if !self.has_room() {
            return Err(Full);
        }
        self.rows[self.len] = policy;
        self.len += 1;
        Ok(())
    }

    // Lends the last policy to `fill`, for one clause more; refused where there is no policy, or no room
    // in it.
    pub(crate) fn fill_last(&mut self, clause: Clause) -> Result<(), Full>
        requires { Fits self.old }
        ensures fits { Fits self.new }
        ensures room { is_ok result ≡ last_room (has_room clause) (policies_of self.old) }
        ensures after { policies_of self.new ≡ (if is_ok result
            then last_filled clause (policies_of self.old) else policies_of self.old) }
    {
        let last = self.len.checked_sub(1).ok_or(Full)?;
        self.rows[last].fill(clause)
    }
}

impl Policy {
    // A policy with no clause yet.
    pub(crate) fn without_clauses(name: Name, right: u32) -> Policy
        ensures { policy_of result ≡ opened (items name) right }
    {
        let none = Term {
            party: Party::Subject,
            attribute: 0,
        };
        Policy {
            name,
            right,
            predicates: Bounded::new(Predicate::Null(none)),
            actions: Bounded::new(Action::Clear(none)),
        }
    }

    // One clause more; refused where the policy has six of that sort.
    fn fill(&mut self, clause: Clause) -> Result<(), Full>
        ensures room { is_ok result ≡ has_room clause (policy_of self.old) }
        ensures after { policy_of self.new ≡ (if is_ok result
            then filled clause (policy_of self.old) else policy_of self.old) }
    {
        match clause {
            Clause::If(predicate) => self.predicates.push(predicate),
            Clause::Do(action) => self.actions.push(action),
        }
    }
}
