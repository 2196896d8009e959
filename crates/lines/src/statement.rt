// A line of a known kind.
use scheme::kind::Kind;
use words::position::Line;

#[derive(Clone, Copy)]
pub struct Statement<'a> {
    pub kind: Kind,
    pub line: Line<'a>,
}
