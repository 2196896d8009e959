// Walks, and the breadth-first search over any walk for an enabled move that meets a goal.
//
// interface  what a walk is, and what a goal
// records    an entry of the found list, and how a search ends
// listing    the states listed so far, in the tables that the caller lends
// tries      the listed states in turn, and each move in each of them
// trace      the witness, back along the parents
// lent       a walk that is lent is a walk
//
// What a search says of the walk's runs is the clause `means` of `search`; which states it lists, in
// which order, and what it writes are the clause `visits`.
#![tactic(auto)]

ghost use Rattle.std.specs.Prelude.{◌≡◌, ◌↔◌, length, None};
ghost use Rattle.walk.specs.Results.{search_answer, marks_after, found_after, witness_after};
ghost use Rattle.walk.specs.Runs.{Means};
ghost use Rattle.walk.specs.Visited.{Met};
ghost use Rattle.walk.specs.Written.{tables, SomeShort, Visits};

pub mod interface;
pub mod lent;
mod listing;
pub mod records;
mod trace;
mod tries;

pub use interface::{Goal, Walk};
pub use records::{Ending, Found};
use tries::Search;

// Lists the states that the walk reaches, in breadth-first order, until an enabled move meets
// the goal; then the witness begins with the moves to it. None, and nothing is changed, where a
// table has fewer entries than the walk has states. The three tables are slices lent one by one wherever a
// search is asked for, and no struct: a rule of the project, since a caller in C lends them so
// (docs/DECISIONS.md, Forms).
pub fn search<W: Walk, G: Goal>(
    walk: &W,
    goal: &G,
    marks: &mut [u32],
    found: &mut [Found],
    witness: &mut [u32],
) -> Option<Ending>
    ensures answer { result ≡ search_answer (W.Walk.model walk.now) (G.Goal.stops goal.now) (length marks.old) (length found.old) (length witness.old) }
    ensures marks { marks.new ≡ marks_after (W.Walk.model walk.now) (G.Goal.stops goal.now) result marks.old }
    ensures found { found.new ≡ found_after (W.Walk.model walk.now) (G.Goal.stops goal.now) result found.old }
    ensures witness { witness.new ≡ witness_after (W.Walk.model walk.now) (G.Goal.stops goal.now) result witness.old }
    ensures means { Means (W.Walk.model walk.now) (G.Goal.stops goal.now) result found.new witness.new }
    ensures refused { (result ≡ None)
        ↔ SomeShort (W.Walk.model walk.now).states (tables marks.old found.old witness.old) }
    ensures visits { Visits (W.Walk.model walk.now) (Met (G.Goal.stops goal.now)) result
        (tables marks.old found.old witness.old) (tables marks.new found.new witness.new) }
{
    let states = walk.states() as usize;
    if marks.len() < states || found.len() < states || witness.len() < states {
        return None;
    }
    let search = Search { walk, goal };
    Some(search.run(&mut marks[..states], &mut found[..states], witness))
}
