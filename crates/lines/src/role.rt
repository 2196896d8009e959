// What a word of a line is, by the line's kind, its count of words and the word's place among them.
use scheme::kind::Kind;

#[derive(Clone, Copy)]
pub enum Role {
    // A name that the line declares.
    NewName,
    // The name of an entry of this kind, declared above.
    Known(Kind),
    // The size of an attribute.
    Size,
    // An object's value for the attribute of the same place, or `-`.
    Value,
    // A term, or what else may stand in its place.
    Term(Instead),
    Comparison,
    // The number that `add` and `sub` take.
    Amount,
    Key(Key),
}

// What may stand in a term's place. No `Option`: each of the three is one test of a form.
#[derive(Clone, Copy)]
pub enum Instead {
    Nothing,
    Number,
    NumberOrDash,
}

// The key words after the first word of a line.
#[derive(Clone, Copy)]
pub enum Key {
    // `null` or `set`
    Test,
    // `to`, `add` or `sub`
    Verb,
    // `destroy`
    Destroy,
    // `s` or `o`
    Party,
}

pub mod forms;
