// Reading of at most so many bytes, and texts one after another, each behind its length.
//
// texts  the texts in turn
#![tactic(auto)]

ghost use Rattle.std.specs.Prelude.{◌≡◌, ◌≤◌, length, take, IfOk, IfSome, MatchResult, List, ℕ};
ghost use Rattle.std.specs.Io.KnownBytes.{Consumes};

pub mod texts;

use std::io;
use std::io::Read;
pub use texts::{Texts, split_text};

// Fills `buffer` from its front until the input ends or `buffer` is full; the bytes that came. `taken`: the input
// loses these, and where a read fails no more than `buffer` has room for.
pub fn read_up_to<'a, R: Read>(input: &mut R, buffer: &'a mut [u8]) -> io::Result<&'a [u8]>
    ensures few { IfOk result (λ bytes. length bytes.now ≤ length buffer.old) }
    ensures first { IfOk result (λ bytes. IfSome (R.remaining input.old) (λ left. bytes.now ≡ take (length buffer.old) left)) }
    ensures taken { MatchResult result (λ bytes. Consumes (R.remaining input.old) (R.remaining input.new) bytes.now) (λ _. (bs : List ℕ) × (length bs ≤ length buffer.old) × Consumes (R.remaining input.old) (R.remaining input.new) bs) }
{
    // A loop that counts: a reader says how many bytes came, and the next are read behind them.
    let mut len = 0;
    while len < buffer.len() {
        let n = input.read(&mut buffer[len..])?;
        if n == 0 {
            break;
        }
        len += n;
    }
    Ok(&buffer[..len])
}

#[cfg(test)]
mod tests;
