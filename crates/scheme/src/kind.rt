// The kinds of lines that declare a scheme, in the order in which a text has them: the `if` and then
// the `do` lines of a policy stand below its own line.

#[derive(Clone, Copy, PartialEq, Eq, PartialOrd, Ord)]
pub enum Kind {
    Attr,
    Right,
    Object,
    Policy,
    If,
    Do,
    Query,
}
