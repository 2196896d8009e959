// The lines that tell the moves of a witness.
ghost use Rattle.std.specs.List.{flat_map};
ghost use Rattle.scheme.specs.Drafts.{draft_of};
ghost use Rattle.render.specs.Appended.{Appended};
ghost use Rattle.report.specs.Moves.{by_line};

use crate::names::name_of;
use record::moves::move_at;
use render::{Word, put_line};
use scheme::draft::Draft;
use scheme::kind::Kind;
use std::alloc::AllocError;

fn put_move(out: &mut Vec<u8>, draft: &Draft, mv: u32) -> Result<(), AllocError>
    ensures { Appended result out.old out.new (by_line (draft_of draft.now) mv) }
{
    let applied = move_at(draft.objects().len() as u8, mv);
    let policy = name_of(draft, Kind::Policy, applied.policy);
    let subject = name_of(draft, Kind::Object, applied.subject);
    let object = name_of(draft, Kind::Object, applied.object);
    put_line(
        out,
        b"by",
        &[Word::Text(policy), Word::Text(subject), Word::Text(object)],
    )
}

// A line for each move.
pub(crate) fn put_moves(out: &mut Vec<u8>, draft: &Draft, moves: &[u32]) -> Result<(), AllocError>
    ensures { Appended result out.old out.new (flat_map (by_line (draft_of draft.now)) moves.now) }
{
    for mv in moves {
        put_move(out, draft, *mv)?;
    }
    Ok(())
}
