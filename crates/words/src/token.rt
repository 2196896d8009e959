// A word by its form. A key word is a name by its form.
use crate::position::Word;
use scheme::terms::{Comparison, Party};

// No `Option` of a comparison: `-` is an operator of the format (docs/DECISIONS.md, Forms).
#[derive(Clone, Copy)]
pub enum Operator {
    Compare(Comparison),
    // `-`, which stands for null.
    Dash,
}

#[derive(Clone, Copy)]
pub enum Token<'a> {
    Name(Word<'a>),
    Number(Word<'a>, u8),
    // `s.` or `o.` and the name of an attribute.
    Term(Word<'a>, Party, &'a [u8]),
    Operator(Word<'a>, Operator),
    // A word of no form that any line allows.
    Other(Word<'a>),
}
