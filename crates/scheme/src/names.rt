// Names, and the search for one among the entries of a kind.
ghost use Rattle.std.specs.Prelude.{◌≡◌, ℕ, ◌<◌, List, map, length, IfSome};
ghost use Rattle.scheme.specs.Names.{index_of};

use bounded::Bounded;

// A name has at most 15 bytes.
pub type Name = Bounded<u8, 15>;

// An entry that has a name in its kind.
pub trait Named {
    ghost named: { Self → List ℕ };

    fn name(&self) -> &[u8]
        ensures { result.now ≡ named self.now };
}

// The number of the entry with this name.
pub fn find<T: Named>(entries: &[T], name: &[u8]) -> Option<usize>
    ensures value { result ≡ index_of name.now (map T.Named.named entries.now) }
    ensures within { IfSome result (λ i. i < length entries.now) }
{
    entries.iter().position(|entry| entry.name() == name)
}
