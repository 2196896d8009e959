// What can be done with a ticket, and who may do it.
ghost use Rattle.std.specs.Prelude.{◌≡◌, slice_get};
ghost use Rattle.ticket.specs.Ticket.{moves, label_of, leads_to};

use protection::Permission;

// A state is a number: up to 10, the rider has the ticket, with so many rides left on it; from 11 on,
// the office has it, with 11 fewer.
pub(crate) const USED_UP: u32 = 0;

pub(crate) const NEW: u32 = 10;

// The office has it, and no ride is left.
pub(crate) const GIVEN_BACK: u32 = 11;

pub(crate) const STATES: usize = 22;

// The rider (0) may stamp the ticket (1) and give it back; the office (2) may renew it, and pay for the
// rides that are left on it.
pub(crate) const STAMP: Permission = Permission {
    subject: 0,
    object: 1,
    right: 0,
};

pub(crate) const GIVE_BACK: Permission = Permission {
    subject: 0,
    object: 1,
    right: 1,
};

pub(crate) const RENEW: Permission = Permission {
    subject: 2,
    object: 1,
    right: 2,
};

pub(crate) const PAY_BACK: Permission = Permission {
    subject: 2,
    object: 1,
    right: 3,
};

#[derive(Clone, Copy)]
pub(crate) enum Move {
    Stamp,
    GiveBack,
    Renew,
    PayBack,
}

// The moves in the order of their numbers.
pub(crate) const MOVES: [Move; 4] = [Move::Stamp, Move::GiveBack, Move::Renew, Move::PayBack];

impl Move {
    pub(crate) fn numbered(mv: u32) -> Option<Move>
        ensures { result ≡ slice_get moves mv }
    {
        MOVES.get(mv as usize).copied()
    }

    // Whose right it is.
    pub(crate) fn label(self) -> Permission
        ensures { result ≡ label_of self }
    {
        match self {
            Move::Stamp => STAMP,
            Move::GiveBack => GIVE_BACK,
            Move::Renew => RENEW,
            Move::PayBack => PAY_BACK,
        }
    }

    // The state that it leads to, if it can be made.
    pub(crate) fn next(self, state: u32) -> Option<u32>
        ensures { result ≡ leads_to self state }
    {
        match (self, state) {
            (Move::Stamp, 1..=NEW) => Some(state - 1),
            (Move::GiveBack, USED_UP) => Some(GIVEN_BACK),
            (Move::Renew, GIVEN_BACK) => Some(NEW),
            (Move::PayBack, 12..=21) => Some(GIVEN_BACK),
            _ => None,
        }
    }
}
