// The words of a line.
ghost use Rattle.std.specs.Prelude.{◌≡◌, length};
ghost use Rattle.std.specs.Iterator.{YieldsFirstBy, at_most};
ghost use Rattle.words.specs.Positions.{line_of, word_of, word_in};
ghost use Rattle.words.specs.Cuts.{line_words, coming_words};
ghost use Rattle.words.specs.Joining.{CutWhereSpaced};

use super::Words;
use super::pieces::piece_end;
use crate::position::{Line, Spot, Word};

const SPACE: u8 = b' ';

impl<'a> Iterator for Words<'a> {
    type Item = Word<'a>;

    ghost next_gives = { YieldsFirstBy word_of coming_words };

    ghost remaining = { λ s. at_most (length s.rest.now) };

    fn next(&mut self) -> Option<Word<'a>> {
        let spaces = self.rest.iter().position(|b| *b != SPACE)?;
        let from = &self.rest[spaces..];
        let (bytes, rest) = from.split_at(piece_end(from, SPACE));
        let word = Word {
            bytes,
            spot: Spot {
                line: self.spot.line,
                place: self.spot.place + spaces,
            },
        };
        *self = Words {
            rest,
            spot: Spot {
                line: self.spot.line,
                place: word.spot.place + bytes.len(),
            },
        };
        Some(word)
    }
}

impl<'a> Line<'a> {
    pub fn words(self) -> Words<'a>
        ensures result { coming_words result ≡ line_words self.entry }
        ensures cut_where_spaced { CutWhereSpaced (line_of self.entry) (line_words self.entry) }
    {
        Words {
            rest: self.bytes,
            spot: Spot {
                line: self.number,
                place: 1,
            },
        }
    }

    // The word at an index from 0; an empty one where the line has no such word. No `Option`: the definition
    // is total, and callers ask only for words that are there.
    pub fn word(self, index: usize) -> Word<'a>
        ensures { word_of result ≡ word_in (line_words self.entry) index }
    {
        self.words().nth(index).unwrap_or(Word {
            bytes: &[],
            spot: Spot { line: 0, place: 0 },
        })
    }

    pub fn count_words(self) -> usize
        ensures { result ≡ length (line_words self.entry) }
    {
        self.words().count()
    }
}
