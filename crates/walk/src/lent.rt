// A lent walk is a walk, and the one that is lent.
ghost use Rattle.std.specs.Prelude.{◌≡◌};

use super::interface::Walk;

impl<'a, W: Walk> Walk for &'a W {
    ghost model = { λ w. W.Walk.model w.now };

    ghost bounds = { λ w. W.Walk.bounds w.now };

    fn states(&self) -> u32
        ensures { result ≡ (W.Walk.model self.now.now).states }
    {
        (**self).states()
    }

    fn start(&self) -> u32
        ensures { result ≡ (W.Walk.model self.now.now).start }
    {
        (**self).start()
    }

    fn moves(&self) -> u32
        ensures { result ≡ (W.Walk.model self.now.now).moves }
    {
        (**self).moves()
    }

    fn step(&self, state: u32, mv: u32) -> Option<u32>
        ensures { result ≡ (W.Walk.model self.now.now).step state mv }
    {
        (**self).step(state, mv)
    }
}
