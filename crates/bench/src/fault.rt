ghost use Rattle.std.specs.Prelude.{◌≡◌};
ghost use Rattle.bench.specs.Faults.{fault_number};

// Why a call is refused. The first three bar every call of a bench.
#[derive(Clone, Copy, Debug, PartialEq, Eq)]
pub enum BenchFault {
    // A table is shorter than the points.
    ShortTable = 10,
    // The cache has other sets than the task.
    OtherSets = 14,
    // The life of the cache is not the task's ways.
    OtherLife = 15,
    // A step, finish or interrupt while interrupted.
    Interrupted = 16,
    // A touch or resume while walking.
    NotInterrupted = 17,
    // A step to no successor.
    NoSuccessor = 18,
    // A finish where successors exist.
    NoExit = 19,
    // A touch of a block that is not evicting.
    NotEvicting = 20,
    // A step or finish, with 60,000 steps made.
    StepsUsedUp = 21,
    // An interrupt, with 1,000 interruptions made.
    InterruptionsUsedUp = 22,
    // A call after the end.
    Ended = 23,
}

impl BenchFault {
    // `as` wants the enum's own type, so that each enum of causes says this for itself.
    pub fn number(self) -> u8
        ensures { result ≡ fault_number self }
    {
        self as u8
    }
}
