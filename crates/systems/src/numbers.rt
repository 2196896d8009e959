// The numbers of a table system, lent for reading: flat lists, by a rule of the project, so that
// a table is given as numbers alone.

#[derive(Clone, Copy)]
pub struct Numbers<'a> {
    pub states: u32,
    pub moves: u32,
    pub objects: u32,
    pub rights: u32,
    pub start: u32,
    // subject, object and right of each move
    pub labels: &'a [u32],
    // state by state and move by move: 0 for no step, or the next state plus 1
    pub entries: &'a [u32],
}
