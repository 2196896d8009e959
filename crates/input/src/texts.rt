// Texts one after another, each behind its length and one byte, and before one byte more.
ghost use Rattle.std.specs.Prelude.{◌≡◌, ◌<◌, [], ◌∷◌, length, not, position, IfSome};
ghost use Rattle.std.specs.Char.{is_ascii_digit};
ghost use Rattle.std.specs.Iterator.{YieldsFirstRef, at_most};
ghost use Rattle.std.specs.Option.{option_map, option_map_or};
ghost use Rattle.input.specs.Texts.{number, capped_number, cut, split_text, texts_in, coming_texts};

// The number that digits write; where it is greater than any length, the greatest length. `parse` would
// refuse such a number, and no digits too.
fn number_of(digits: &[u8]) -> usize
    ensures { result ≡ capped_number digits.now }
{
    digits.iter().fold(0usize, |n, d| {
        n.saturating_mul(10)
            .saturating_add(usize::from(d.saturating_sub(b'0')))
    })
}

// As many bytes as the digits say, and what follows the byte behind them.
#[tactic(auto, using(crate::proofs::Capped::capped))]
fn cut<'a>(digits: &[u8], bytes: &'a [u8]) -> Option<(&'a [u8], &'a [u8])>
    ensures value { option_map (λ r. (r.0.now, r.1.now)) result ≡ cut (number digits.now) bytes.now }
    ensures shorter { IfSome result (λ r. length r.1.now < length bytes.now) }
{
    let len = number_of(digits);
    if len < bytes.len() {
        Some((&bytes[..len], &bytes[len + 1..]))
    } else {
        None
    }
}

// How many digits stand in front; none where nothing else follows them.
fn digits_in(bytes: &[u8]) -> Option<usize>
    ensures { result ≡ position (λ b. not (is_ascii_digit b)) bytes.now }
{
    bytes.iter().position(|b| !b.is_ascii_digit())
}

// The text in front, and what follows; none where no whole text stands in front.
pub fn split_text(bytes: &[u8]) -> Option<(&[u8], &[u8])>
    ensures value { option_map (λ r. (r.0.now, r.1.now)) result ≡ split_text bytes.now }
    ensures shorter { IfSome result (λ r. length r.1.now < length bytes.now) }
{
    let digits = digits_in(bytes)?;
    cut(&bytes[..digits], &bytes[digits + 1..])
}

// The texts in some bytes that are still to come.
#[derive(Clone, Copy)]
pub struct Texts<'a> {
    rest: &'a [u8],
}

impl<'a> Texts<'a> {
    // One after another, until no whole text stands in front.
    #[tactic(auto, using(crate::proofs::InTurn::in_turn))]
    pub fn of(bytes: &'a [u8]) -> Texts<'a>
        ensures all { coming_texts result ≡ texts_in bytes.now }
        ensures in_turn { coming_texts result ≡ option_map_or (λ (text, rest). text ∷ texts_in rest) (split_text bytes.now) [] }
    {
        Texts { rest: bytes }
    }
}

impl<'a> Iterator for Texts<'a> {
    type Item = &'a [u8];

    ghost next_gives = { YieldsFirstRef coming_texts };

    ghost remaining = { λ s. at_most (length s.rest.now) };

    #[tactic(auto, using(crate::proofs::InTurn::in_turn))]
    fn next(&mut self) -> Option<&'a [u8]> {
        let (text, rest) = split_text(self.rest)?;
        self.rest = rest;
        Some(text)
    }
}
