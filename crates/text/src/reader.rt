// Reads a text line by line.
use scheme::draft::Draft;
use scheme::kind::Kind;

// What the lines so far declare, and the kind of the last one with a word.
#[derive(Clone, Copy)]
pub(crate) struct Reader {
    draft: Draft,
    last: Option<Kind>,
}

mod methods;
