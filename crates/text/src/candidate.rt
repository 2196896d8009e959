// A line that is to be added to what the lines above it declare.
use lines::statement::Statement;
use scheme::draft::Draft;

#[derive(Clone, Copy)]
pub(crate) struct Candidate<'a> {
    pub(crate) draft: &'a Draft,
    pub(crate) statement: Statement<'a>,
}
