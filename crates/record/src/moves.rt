// The policy, subject and object of each move.
ghost use Rattle.std.specs.Prelude.{◌≡◌};
ghost use Rattle.record.specs.Moves.{move_at};

#[derive(Clone, Copy)]
pub struct Move {
    pub policy: u32,
    pub subject: u32,
    pub object: u32,
}

pub(crate) mod table;

// The move with a number, where there are so many objects. Without objects there is no move; then
// the definition divides by 0, which gives 0 and leaves the whole number as the rest.
pub fn move_at(objects: u8, mv: u32) -> Move
    ensures { result ≡ move_at objects mv }
{
    let objects = u32::from(objects);
    if objects == 0 {
        return Move {
            policy: 0,
            subject: 0,
            object: mv,
        };
    }
    Move {
        policy: mv / (objects * objects),
        subject: mv / objects % objects,
        object: mv % objects,
    }
}
