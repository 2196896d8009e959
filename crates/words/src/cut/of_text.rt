// The lines of a text.
ghost use Rattle.std.specs.Prelude.{◌≡◌, length};
ghost use Rattle.std.specs.Iterator.{YieldsFirstBy, at_most};
ghost use Rattle.words.specs.Positions.{line_of};
ghost use Rattle.words.specs.Cuts.{text_lines, coming_lines};
ghost use Rattle.words.specs.Joining.{CutWhereJoined};

use super::Lines;
use super::pieces::piece_end;
use crate::position::Line;

impl<'a> Lines<'a> {
    pub fn of(text: &'a [u8]) -> Lines<'a>
        ensures result { coming_lines result ≡ text_lines text.now }
        ensures cut_where_joined { CutWhereJoined text.now (text_lines text.now) }
    {
        Lines {
            rest: text,
            number: 1,
        }
    }
}

impl<'a> Iterator for Lines<'a> {
    type Item = Line<'a>;

    ghost next_gives = { YieldsFirstBy line_of coming_lines };

    ghost remaining = { λ s. at_most (length s.rest.now) };

    fn next(&mut self) -> Option<Line<'a>> {
        if self.rest.is_empty() {
            return None;
        }
        let line = Line {
            bytes: &self.rest[..piece_end(self.rest, b'\n')],
            number: self.number,
        };
        let behind = self.rest.len().min(line.bytes.len() + 1);
        *self = Lines {
            rest: &self.rest[behind..],
            number: self.number + 1,
        };
        Some(line)
    }
}
