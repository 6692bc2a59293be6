ghost use Rattle.std.specs.Prelude.{◌≡◌};
ghost use Rattle.cache.specs.Faults.{number};

// Why no cache is made.
#[derive(Clone, Copy, Debug, PartialEq, Eq)]
pub enum CacheFault {
    // not 1 to 64 sets
    Sets = 12,
    // a number of ways that the cache cannot have
    Ways = 13,
}

impl CacheFault {
    // `as` wants the enum's own type, so that each enum of causes says this for itself.
    pub fn number(self) -> u8
        ensures { result ≡ number self }
    {
        self as u8
    }
}
