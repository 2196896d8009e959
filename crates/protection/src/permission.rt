// The right of a subject on an object.
ghost use Rattle.std.specs.Prelude.{◌≡◌};
ghost use Rattle.protection.specs.Permissions.{within};

#[derive(Clone, Copy, PartialEq, Eq)]
pub struct Permission {
    pub subject: u32,
    pub object: u32,
    pub right: u32,
}

impl Permission {
    // Whether it is within the counts of objects and of rights.
    pub fn is_within(self, objects: u32, rights: u32) -> bool
        ensures { result ≡ within objects rights self }
    {
        self.subject < objects && self.object < objects && self.right < rights
    }
}
