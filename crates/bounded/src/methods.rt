// What a bounded list does, said of the list of its items.
ghost use Rattle.std.specs.Prelude.{◌≡◌, ◌<◌, [], ◌∷◌, ◌++◌, length, if◌then◌else◌, is_ok, Some, None, MatchResult, nat_le, nat_lt};
ghost use Rattle.std.specs.Option.{option_map};
ghost use Rattle.std.specs.Iterator.{IsFinite};
ghost use Rattle.std.specs.Iterator.Runs.{SomeRun, WholeRun};
ghost use Rattle.bounded.specs.Items.{items};

use super::Bounded;
use crate::full::Full;

impl<T: Copy, const N: usize> Bounded<T, N> {
    // An empty list; `filler` stands in the array where no item is yet.
    pub fn new(filler: T) -> Self
        ensures { items result ≡ [] }
    {
        Bounded {
            array: [filler; N],
            len: 0,
        }
    }

    // A copy of the items of a slice, or none where they are more than N: in one piece, and no `collect`.
    pub fn from_slice(slice: &[T], filler: T) -> Option<Self>
        ensures { option_map items result ≡ (if nat_le (length slice.now) N then Some slice.now else None) }
    {
        if slice.len() > N {
            return None;
        }
        let mut array = [filler; N];
        array[..slice.len()].copy_from_slice(slice);
        Some(Bounded {
            array,
            len: slice.len(),
        })
    }

    // The items that an iterator gives; refused where they are more than N.
    pub fn collect<I: Iterator<Item = T>>(filler: T, from: I) -> Result<Self, Full>
        requires can { I.can_next from }
        requires finite { IsFinite (I.remaining from) }
        ensures { MatchResult result (λ list. WholeRun I.next_gives from (λ p. items list ≡ p.items)) (λ _. SomeRun I.next_gives from (λ p. N < p.len)) }
    {
        let mut list = Bounded::new(filler);
        for item in from {
            list.push(item)?;
        }
        Ok(list)
    }

    pub fn as_slice(&self) -> &[T]
        ensures { result.now ≡ items self.now }
    {
        &self.array[..self.len]
    }

    pub fn has_room(&self) -> bool
        ensures { result ≡ nat_lt (length (items self.now)) N }
    {
        self.len < N
    }

    // One item more at the end; refused where the list is full.
    pub fn push(&mut self, item: T) -> Result<(), Full>
        ensures room { is_ok result ≡ nat_lt (length (items self.old)) N }
        ensures after { items self.new ≡ (if is_ok result then items self.old ++ item ∷ [] else items self.old) }
    {
        if !self.has_room() {
            return Err(Full);
        }
        self.array[self.len] = item;
        self.len += 1;
        Ok(())
    }
}
