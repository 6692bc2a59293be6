ghost use Rattle.std.specs.Prelude.{◌≡◌};
ghost use Rattle.cache.specs.Outcomes.{outcome_of};

// What an access met.
#[derive(Clone, Copy, Debug, PartialEq, Eq)]
pub enum Outcome {
    Hit,
    Miss,
}

// Hit where the block was held.
impl From<bool> for Outcome {
    ghost from_gives = { λ hit r. r ≡ outcome_of hit };

    fn from(hit: bool) -> Outcome {
        if hit { Outcome::Hit } else { Outcome::Miss }
    }
}
