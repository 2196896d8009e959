// A line: a first word, then each further word after one space, then the end of the line.
ghost use Rattle.std.specs.Prelude.{[], ◌∷◌, map};
ghost use Rattle.std.specs.List.{flat_map};
ghost use Rattle.render.specs.Appended.{Appended};
ghost use Rattle.render.specs.Lines.{spaced, word_of, line_of};

use crate::bytes::put;
use crate::words::{Word, put_word};
use std::alloc::AllocError;

// A space and a word.
fn put_next(out: &mut Vec<u8>, word: &Word) -> Result<(), AllocError>
    ensures { Appended result out.old out.new (spaced (word_of word.now)) }
{
    put(out, b" ")?;
    put_word(out, word)
}

fn put_words(out: &mut Vec<u8>, words: &[Word]) -> Result<(), AllocError>
    ensures { Appended result out.old out.new (flat_map spaced (map word_of words.now)) }
{
    for word in words {
        put_next(out, word)?;
    }
    Ok(())
}

fn end_line(out: &mut Vec<u8>) -> Result<(), AllocError>
    ensures { Appended result out.old out.new (10 ∷ []) }
{
    put(out, b"\n")
}

pub fn put_line(out: &mut Vec<u8>, head: &[u8], words: &[Word]) -> Result<(), AllocError>
    ensures { Appended result out.old out.new (line_of head.now words.now) }
{
    put(out, head)?;
    put_words(out, words)?;
    end_line(out)
}
