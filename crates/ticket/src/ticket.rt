// A ticket of ten rides, as a protection system.
ghost use Rattle.ticket.specs.Ticket.{ticket_walk, ticket_labels};
ghost use Rattle.ticket.specs.TicketLaws.{ticket_bounds, ticket_counts};

use crate::moves::{MOVES, Move, NEW, STATES};
use protection::{Permission, System};
use walk::Walk;

#[derive(Clone, Copy)]
pub struct Ticket;

impl Walk for Ticket {
    ghost model = { λ _. ticket_walk };

    ghost bounds = { λ _. ticket_bounds };

    fn states(&self) -> u32 {
        STATES as u32
    }

    fn start(&self) -> u32 {
        NEW
    }

    fn moves(&self) -> u32 {
        MOVES.len() as u32
    }

    fn step(&self, state: u32, mv: u32) -> Option<u32> {
        Move::numbered(mv)?.next(state)
    }
}

impl System for Ticket {
    ghost labels = { λ _. ticket_labels };

    ghost counts = { λ _. ticket_counts };

    fn objects(&self) -> u32 {
        3
    }

    fn rights(&self) -> u32 {
        4
    }

    fn label(&self, mv: u32) -> Option<Permission> {
        Move::numbered(mv).map(|mv| mv.label())
    }
}
