// Walks and the goals of a search, by what they mean.
ghost use Rattle.std.specs.Prelude.{◌≡◌, ℕ, Bool};
ghost use Rattle.walk.specs.Walks.{Walk as WalkModel, Bounds};

// A walk: its model is within the bounds, and every question is answered by the model.
pub trait Walk {
    ghost model: { Self → WalkModel };

    fn states(&self) -> u32
        ensures { result ≡ (model self.now).states };

    fn start(&self) -> u32
        ensures { result ≡ (model self.now).start };

    fn moves(&self) -> u32
        ensures { result ≡ (model self.now).moves };

    // A state and a move, and no struct of both: a search has each by itself.
    fn step(&self, state: u32, mv: u32) -> Option<u32>
        ensures { result ≡ (model self.now).step state mv };

    ghost bounds: { (w : Self) → Bounds (model w) };
}

// The stop test of a search: the first enabled move that meets the goal ends it.
// No closure, since the contracts name the test as a function, and a closure has a relation.
pub trait Goal {
    ghost stops: { Self → ℕ → Bool };

    fn is_met(&self, mv: u32) -> bool
        ensures { result ≡ stops self.now mv };
}
