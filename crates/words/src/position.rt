// Lines and words are parts of the text; each knows where it stands. Lines and places count from 1.

#[derive(Clone, Copy)]
pub struct Line<'a> {
    pub bytes: &'a [u8],
    pub number: usize,
}

// A line and a place in it.
#[derive(Clone, Copy)]
pub struct Spot {
    pub line: usize,
    pub place: usize,
}

// A word and the spot of its first byte.
#[derive(Clone, Copy)]
pub struct Word<'a> {
    pub bytes: &'a [u8],
    pub spot: Spot,
}
