// What a search writes and answers.

// A record of the found list: a state, the place of the state it was found from, and the move.
// Laid out as in C, so that a caller in C can lend the table.
#[derive(Clone, Copy)]
#[repr(C)]
pub struct Found {
    pub state: u32,
    pub parent: u32,
    pub mv: u32,
}

// How a search ended: how many states are listed, how many moves were tried, the ending one
// counted, and where a move ended it the length of the witness. An enum, and no struct with an
// `Option` of the length, since each case says by its name what the contracts say of it.
#[derive(Clone, Copy)]
pub enum Ending {
    // an enabled move met the goal
    Stopped { found: u32, tried: u64, length: u32 },
    // every listed state was taken, and no enabled move met the goal
    Exhausted { found: u32, tried: u64 },
}
