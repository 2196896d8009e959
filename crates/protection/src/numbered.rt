// Refusals that are told by numbers.
ghost use Rattle.std.specs.Prelude.{◌≡◌};
ghost use Rattle.protection.specs.Refusals.{Refused};

// A refusal. Each type writes its numbers in a `match`: some cases carry values, so that not every
// number could be a discriminant.
pub trait Numbered {
    ghost values: { Self → Refused };

    fn number(self) -> u32
        ensures { result ≡ (values self).number };
}
