// Lists of bounded length that live in one array: nothing here allocates, so nothing here can
// run out of memory.
#![tactic(auto)]

ghost use Rattle.std.specs.Prelude.{◌≡◌, ◌≤◌, length};

// At most N items, in order: the first `len` of the array. It stands where a `Vec` would: a list that
// allocates could be refused for want of memory, and nothing that reads or analyses a text may be. The
// kit's `ArrayVec` is no `Copy`, as names, drafts and records are.
#[derive(Copy)]
pub struct Bounded<T, const N: usize> {
    array: [T; N],
    len: usize,
    ghost sized: { length array ≡ N },
    ghost fits: { len ≤ N },
}

mod clone;
pub mod full;
pub mod methods;

pub use full::Full;
