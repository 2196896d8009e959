// The way along the parents, and the witness that is written from it.
ghost use Rattle.std.specs.Prelude.{◌≡◌, ◌<◌, ◌≤◌, [], ◌∷◌, ◌++◌, length, drop};
ghost use Rattle.walk.specs.Search.{moves_to};
ghost use Rattle.walk.specs.Kept.{Rooted};

use super::records::Found;

// How many moves lead to a place.
fn depth(found: &[Found], place: u32) -> u32
    requires rooted { Rooted found.now }
    requires here { place < length found.now }
    ensures value { result ≡ length (moves_to found.now place) }
    ensures shallow { result ≤ place }
{
    let mut at = place;
    let mut steps: u32 = 0;
    // no chain of `successors`, which is endless as far as a contract knows, and so cannot be counted
    while at != 0 {
        at = found[at as usize].parent;
        steps += 1;
    }
    steps
}

// Writes the moves that lead to a place and then one more; answers how many.
// The entries behind them are left as they are.
pub(crate) fn write_witness(found: &[Found], place: u32, mv: u32, witness: &mut [u32]) -> u32
    requires rooted { Rooted found.now }
    requires here { place < length found.now }
    requires room { place < length witness.old }
    requires small { place < 1048576 }
    ensures total { result ≡ length (moves_to found.now place ++ (mv ∷ [])) }
    ensures written { witness.new ≡ (moves_to found.now place ++ (mv ∷ [])) ++ drop result witness.old }
{
    let depth = depth(found, place);
    witness[depth as usize] = mv;
    let mut at = place;
    // by index, since a proof knows nothing of the entries once they were written through `iter_mut().rev()`
    for left in (0..depth).rev() {
        let step = found[at as usize];
        witness[left as usize] = step.mv;
        at = step.parent;
    }
    depth + 1
}
