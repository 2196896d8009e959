// Protection systems, by what they mean.
ghost use Rattle.std.specs.Prelude.{◌≡◌, is_some, nat_lt};
ghost use Rattle.protection.specs.Systems.{Labels, Counts};

use super::permission::Permission;
use walk::Walk;

// A protection system: a walk with counts of objects and of rights, and labels.
pub trait System: Walk {
    ghost labels: { Self → Labels };

    fn objects(&self) -> u32
        ensures { result ≡ (labels self.now).objects };

    fn rights(&self) -> u32
        ensures { result ≡ (labels self.now).rights };

    // Exactly the moves of the walk have a label.
    fn label(&self, mv: u32) -> Option<Permission>
        ensures value { result ≡ (labels self.now).label mv }
        ensures exact { is_some result ≡ nat_lt mv (Self.Walk.model self.now).moves };

    ghost counts: { (s : Self) → Counts (labels s) };
}
