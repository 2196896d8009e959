// The tables of a search, as it lists states in them.
ghost use Rattle.std.specs.Prelude.{◌≤◌, length, take};
ghost use Rattle.walk.specs.Tables.{Marked};

use crate::records::Found;

// A lifetime for each table, so that each is known again once the listing is let go.
#[derive(Drop)]
pub(crate) struct Listing<'m, 't> {
    // of each state its place in the table plus 1, or 0 where it is not listed: marks are numbers, and no
    // `Option`, since callers lend and read them (docs/DECISIONS.md, Forms)
    marks: &'m mut [u32],
    // the listed states, and behind them what the caller's table held: lent with room for all, since a list
    // that grows would need memory
    table: &'t mut [Found],
    pub(crate) count: u32,
    ghost fits: { count ≤ length table.now },
    ghost marked: { Marked marks.now (take count table.now) },
}

mod methods;
