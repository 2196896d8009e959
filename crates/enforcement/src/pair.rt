// The two objects that a policy is applied to, by their codes.
ghost use Rattle.std.specs.Prelude.{◌≡◌};
ghost use Rattle.enforcement.specs.Coded.{code_in, with_code};

use scheme::terms::Party;

#[derive(Clone, Copy)]
pub struct Pair {
    pub subject: u32,
    pub object: u32,
}

impl Pair {
    pub(crate) fn of(self, party: Party) -> u32
        ensures { result ≡ code_in party self }
    {
        match party {
            Party::Subject => self.subject,
            Party::Object => self.object,
        }
    }

    // The pair with another code for one of the two.
    pub(crate) fn with(self, party: Party, code: u32) -> Pair
        ensures { result ≡ with_code party self code }
    {
        match party {
            Party::Subject => Pair {
                subject: code,
                ..self
            },
            Party::Object => Pair {
                object: code,
                ..self
            },
        }
    }
}
