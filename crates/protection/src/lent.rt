// A lent protection system is a protection system, and the one that is lent.
ghost use Rattle.std.specs.Prelude.{◌≡◌, is_some, nat_lt};

use super::interface::System;
use super::permission::Permission;

impl<'a, S: System> System for &'a S {
    ghost labels = { λ s. S.System.labels s.now };

    ghost counts = { λ s. S.System.counts s.now };

    fn objects(&self) -> u32
        ensures { result ≡ (S.System.labels self.now.now).objects }
    {
        (**self).objects()
    }

    fn rights(&self) -> u32
        ensures { result ≡ (S.System.labels self.now.now).rights }
    {
        (**self).rights()
    }

    fn label(&self, mv: u32) -> Option<Permission>
        ensures value { result ≡ (S.System.labels self.now.now).label mv }
        ensures exact { is_some result ≡ nat_lt mv (S.Walk.model self.now.now).moves }
    {
        (**self).label(mv)
    }
}
