// What a text must be before its lines are looked at, and the words of a line before anything else is asked.
ghost use Rattle.std.specs.Prelude.{◌≡◌};
ghost use Rattle.words.specs.Positions.{line_of};
ghost use Rattle.words.specs.Plain.{short_text, printable, plain_bytes, short_words, plain_line};

use crate::fault::WordFault;
use crate::position::{Line, Spot};

const MAX_TEXT: usize = 65_535;

const MAX_WORD: usize = 17;

// A text has at most 65,535 bytes.
pub fn check_text(text: &[u8]) -> Result<(), WordFault>
    ensures { result ≡ short_text text.now }
{
    if text.len() > MAX_TEXT {
        return Err(WordFault::LongText);
    }
    Ok(())
}

fn is_printable(b: u8) -> bool
    ensures { result ≡ printable b }
{
    matches!(b, b' '..=b'~')
}

// Each byte of the line is printable.
fn check_bytes(line: Line) -> Result<(), WordFault>
    ensures { result ≡ plain_bytes (line_of line.entry) }
{
    match line.bytes.iter().position(|b| !is_printable(*b)) {
        Some(i) => Err(WordFault::Byte(Spot {
            line: line.number,
            place: i + 1,
        })),
        None => Ok(()),
    }
}

// No word is above 17 bytes.
fn check_lengths(line: Line) -> Result<(), WordFault>
    ensures { result ≡ short_words (line_of line.entry) }
{
    match line.words().find(|word| word.bytes.len() > MAX_WORD) {
        Some(word) => Err(WordFault::LongWord(word.spot)),
        None => Ok(()),
    }
}

pub fn check_line(line: Line) -> Result<(), WordFault>
    ensures { result ≡ plain_line (line_of line.entry) }
{
    check_bytes(line)?;
    check_lengths(line)
}
