// A monitor over any protection system: it grants what is enabled, and nothing else. Its calls answer and move as
// the definitions of histories say, of which the safety promise speaks.
//
// denial    why a call is refused
// evidence  the replay of a witness by a new monitor, and an analysis whose leaks are replayed
#![tactic(auto)]

ghost use Rattle.std.specs.Prelude.{◌≡◌};
ghost use Rattle.protection.specs.Meaning.{meaning};
ghost use Rattle.protection.specs.Refusals.{numbered};
ghost use Rattle.protection.specs.Histories.{enforce as call_enforce, request as call_request, restart as call_restart, enabled_as, lowest_enabled, enforce_answer, request_answer, may_answer, after};
ghost use Rattle.monitor.specs.Denials.{denial_values};
ghost use Rattle.monitor.specs.Replays.{replay_answer, replay_leaves};
ghost use Rattle.monitor.specs.Calls.{MakesThatMove, MakesTheLowestMove, TellsWhetherEnabled, MakesMovesInTurn};

use protection::{Permission, System, in_counts};
use walk::Walk;

pub mod denial;
pub mod evidence;

pub use denial::Denial;
pub use evidence::{confirm, replays};
pub use protection::Numbered;

// A system and the state that it is in; only the calls below change the state.
#[derive(Drop)]
pub struct Monitor<S> {
    system: S,
    state: u32,
}

impl<S: System> Monitor<S> {
    // A new monitor, in the start state.
    pub fn new(system: S) -> Self
        ensures system { result.system ≡ system }
        ensures state { result.state ≡ (meaning S.Walk S.System.own system).walk.start }
    {
        let state = system.start();
        Monitor { system, state }
    }

    // Makes a move, if it is enabled.
    pub fn enforce(&mut self, mv: u32) -> Result<u32, Denial>
        ensures answer { numbered denial_values result ≡ enforce_answer (meaning S.Walk S.System.own self.old.system) self.old.state mv }
        ensures state { self.new.state ≡ after (meaning S.Walk S.System.own self.old.system) self.old.state (call_enforce mv) }
        ensures system { self.new.system ≡ self.old.system }
        ensures makes_that_move { let system = meaning S.Walk S.System.own self.old.system in
            MakesThatMove system self.old.state mv (numbered denial_values result) self.new.state }
    {
        if mv >= self.system.moves() {
            return Err(Denial::NoSuchMove);
        }
        let next = self.system.step(self.state, mv).ok_or(Denial::NotEnabled)?;
        self.state = next;
        Ok(mv)
    }

    // Makes the lowest enabled move with that label.
    pub fn request(&mut self, p: Permission) -> Result<u32, Denial>
        ensures answer { numbered denial_values result ≡ request_answer (meaning S.Walk S.System.own self.old.system) self.old.state p }
        ensures state { self.new.state ≡ after (meaning S.Walk S.System.own self.old.system) self.old.state (call_request p) }
        ensures system { self.new.system ≡ self.old.system }
        ensures makes_the_lowest_move { let system = meaning S.Walk S.System.own self.old.system in
            MakesTheLowestMove system self.old.state p (numbered denial_values result) self.new.state }
    {
        if !in_counts(&self.system, p) {
            return Err(Denial::OutOfCounts);
        }
        let mv = lowest_enabled(&self.system, self.state, p).ok_or(Denial::NotEnabled)?;
        self.enforce(mv)
    }

    // Says whether a move with that label is enabled.
    pub fn may(&self, p: Permission) -> Result<bool, Denial>
        ensures answer { numbered denial_values result ≡ may_answer (meaning S.Walk S.System.own self.now.system) self.now.state p }
        ensures tells_whether_enabled { let system = meaning S.Walk S.System.own self.now.system in
            TellsWhetherEnabled system self.now.state p (numbered denial_values result) }
    {
        if !in_counts(&self.system, p) {
            return Err(Denial::OutOfCounts);
        }
        Ok(lowest_enabled(&self.system, self.state, p).is_some())
    }

    pub fn state(&self) -> u32
        ensures { result ≡ self.now.state }
    {
        self.state // where the calls so far have left it
    }

    // Goes back to the start state.
    pub fn restart(&mut self)
        ensures state { self.new.state ≡ after (meaning S.Walk S.System.own self.old.system) self.old.state call_restart }
        ensures at_the_start { self.new.state ≡ (meaning S.Walk S.System.own self.old.system).walk.start }
        ensures system { self.new.system ≡ self.old.system }
    {
        self.state = self.system.start();
    }

    // Enforces moves in turn, and stops at the first that is refused.
    pub fn replay(&mut self, moves: &[u32]) -> Result<(), Denial>
        ensures answer { numbered denial_values result ≡ replay_answer (meaning S.Walk S.System.own self.old.system) self.old.state moves.now }
        ensures state { self.new.state ≡ replay_leaves (meaning S.Walk S.System.own self.old.system) self.old.state moves.now }
        ensures system { self.new.system ≡ self.old.system }
        ensures makes_moves_in_turn { let system = meaning S.Walk S.System.own self.old.system in
            MakesMovesInTurn system self.old.state moves.now (numbered denial_values result) self.new.state }
    {
        for mv in moves {
            self.enforce(*mv)?;
        }
        Ok(())
    }
}

// The lowest move that is enabled in a state and has that label.
fn lowest_enabled<S: System>(system: &S, state: u32, p: Permission) -> Option<u32>
    ensures { result ≡ lowest_enabled (meaning S.Walk S.System.own system.now) state p }
{
    // a `find` over the numbers takes several times as long
    for mv in 0..system.moves() {
        if is_enabled_as(system, state, p, mv) {
            return Some(mv);
        }
    }
    None
}

// Whether a move is enabled in a state and has that label.
fn is_enabled_as<S: System>(system: &S, state: u32, p: Permission, mv: u32) -> bool
    ensures { result ≡ enabled_as (meaning S.Walk S.System.own system.now) state p mv }
{
    system.step(state, mv).is_some() && system.label(mv) == Some(p)
}
