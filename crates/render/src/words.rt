// Names and numbers, as the words of a line.
ghost use Rattle.std.specs.Prelude.{decimal};
ghost use Rattle.render.specs.Appended.{Appended};
ghost use Rattle.render.specs.Lines.{word_of};

use crate::bytes::put;
use itoa::Buffer;
use std::alloc::AllocError;

#[derive(Clone, Copy)]
pub enum Word<'a> {
    Text(&'a [u8]),
    // In decimal, without leading zeros.
    Number(u64),
}

fn put_number(out: &mut Vec<u8>, n: u64) -> Result<(), AllocError>
    ensures { Appended result out.old out.new (decimal n) }
{
    put(out, Buffer::new().format(n).as_bytes())
}

pub(crate) fn put_word(out: &mut Vec<u8>, word: &Word) -> Result<(), AllocError>
    ensures { Appended result out.old out.new (word_of word.now) }
{
    match *word {
        Word::Text(name) => put(out, name),
        Word::Number(n) => put_number(out, n),
    }
}
