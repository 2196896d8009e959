// The lock list as a protection system, and the call that adds to it.
ghost use Rattle.std.specs.Prelude.{◌≡◌, []};
ghost use Rattle.protection.specs.Meaning.{meaning};
ghost use Rattle.protection.specs.Refusals.{numbered};
ghost use Rattle.protection.specs.Systems.{system_of};
ghost use Rattle.systems.specs.Refusals.{lock_refusal_values};
ghost use Rattle.systems.specs.Locks.{is_listed, is_locked, locked_walk, lock_answer, locks_after};
ghost use Rattle.systems.specs.LockLists.{locks_of};
ghost use Rattle.systems.specs.LockLaws.{locked_bounds};
ghost use Rattle.systems.specs.LockPromise.{LacksLockedSteps, ListsThePermission, LocksHold};

use super::lock::LockList;
use super::refusals::LockRefusal;
use bounded::Bounded;
use protection::{Permission, System, in_counts};
use walk::Walk;

impl<S: System> LockList<S> {
    // The system with nothing locked.
    pub fn new(system: S) -> Self
        ensures locks { locks_of result ≡ [] }
        ensures system { result.system ≡ system }
        ensures nothing_is_locked { LacksLockedSteps (meaning S.Walk S.System.own system) []
            (system_of (⟦<LockList<S> as Walk>⟧.model result)
            (⟦<LockList<S> as System>⟧.labels result)) }
    {
        let unused = Permission {
            subject: 0,
            object: 0,
            right: 0,
        };
        LockList {
            system,
            locks: Bounded::new(unused),
        }
    }

    // The permissions that are locked.
    pub fn listed(&self) -> &[Permission]
        ensures { result.now ≡ locks_of self.now }
    {
        self.locks.as_slice()
    }

    // Lists a permission, unless it is listed already.
    fn list(&mut self, p: Permission) -> Result<u32, LockRefusal>
        ensures answer { numbered lock_refusal_values result ≡ lock_answer (S.System.labels self.old.system) (locks_of self.old) p }
        ensures after { locks_of self.new ≡ locks_after (S.System.labels self.old.system) (locks_of self.old) p }
        ensures system { self.new.system ≡ self.old.system }
    {
        if !in_counts(&self.system, p) {
            return Err(LockRefusal::OutOfCounts);
        }
        if has_lock(self.listed(), p) {
            return Ok(self.listed().len() as u32);
        }
        self.locks.push(p)?;
        Ok(self.listed().len() as u32)
    }

    // Locks a permission, unless it is locked already, and answers how many are. `locks_hold`: no history of a
    // monitor over the list contains a grant of what is locked, or a yes to it; locks open nothing; and moves
    // whose label is not locked keep their steps.
    pub fn lock(&mut self, p: Permission) -> Result<u32, LockRefusal>
        ensures answer { numbered lock_refusal_values result ≡ lock_answer (S.System.labels self.old.system) (locks_of self.old) p }
        ensures after { locks_of self.new ≡ locks_after (S.System.labels self.old.system) (locks_of self.old) p }
        ensures system { self.new.system ≡ self.old.system }
        ensures lists_the_permission { let below = meaning S.Walk S.System.own self.old.system in
            ListsThePermission below (locks_of self.old) p
            (numbered lock_refusal_values result) (locks_of self.new) }
        ensures locks_hold { LocksHold (meaning S.Walk S.System.own self.new.system) (locks_of self.new)
            (system_of (⟦<LockList<S> as Walk>⟧.model self.new)
            (⟦<LockList<S> as System>⟧.labels self.new)) }
    {
        self.list(p)
    }
}

impl<S: System> Walk for LockList<S> {
    ghost model = { λ l. locked_walk (locks_of l) (S.Walk.model l.system) (S.System.labels l.system) };

    ghost bounds = { λ l. locked_bounds (locks_of l) (S.Walk.model l.system) (S.System.labels l.system) (S.Walk.bounds l.system) };

    fn states(&self) -> u32 {
        self.system.states()
    }

    fn start(&self) -> u32 {
        self.system.start()
    }

    fn moves(&self) -> u32 {
        self.system.moves()
    }

    fn step(&self, state: u32, mv: u32) -> Option<u32> {
        if is_label_locked(self.listed(), self.system.label(mv)) {
            return None;
        }
        self.system.step(state, mv)
    }
}

impl<S: System> System for LockList<S> {
    ghost labels = { λ l. S.System.labels l.system };

    ghost counts = { λ l. S.System.counts l.system };

    fn objects(&self) -> u32 {
        self.system.objects()
    }

    fn rights(&self) -> u32 {
        self.system.rights()
    }

    fn label(&self, mv: u32) -> Option<Permission> {
        self.system.label(mv)
    }
}

// Whether there is a label, and it is locked.
fn is_label_locked(locks: &[Permission], label: Option<Permission>) -> bool
    ensures { result ≡ is_locked locks.now label }
{
    label.is_some_and(|p| has_lock(locks, p))
}

fn has_lock(locks: &[Permission], p: Permission) -> bool
    ensures { result ≡ is_listed locks.now p }
{
    // no `contains`, whose work for a short list is many times that of this
    locks.iter().any(|lock| *lock == p)
}
