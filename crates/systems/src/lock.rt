// A protection system, and up to sixteen permissions that are locked in it.
use bounded::Bounded;
use protection::Permission;

#[derive(Drop)]
pub struct LockList<S> {
    pub(crate) system: S,
    pub(crate) locks: Bounded<Permission, 16>,
}
