ghost use Rattle.std.specs.Prelude.{◌≡◌};
ghost use Rattle.task.specs.declared.faults.StartFault.TheVariants.{Memory};

use std::alloc::AllocError;

// Why no draft is begun.
#[derive(Clone, Copy, Debug, PartialEq, Eq)]
pub enum StartFault {
    // sets, ways or reload time out of range
    Value,
    Memory,
}

impl From<AllocError> for StartFault {
    ghost from_gives = { λ _ r. r ≡ Memory };

    fn from(_error: AllocError) -> StartFault {
        StartFault::Memory
    }
}

// Why a point or an evicting block is not taken.
#[derive(Clone, Copy, Debug, PartialEq, Eq)]
pub enum AddFault {
    // out of range, or not above the one before
    Value,
    // the draft holds as many as a task may have
    Number,
}

// Why a draft is no task yet.
#[derive(Clone, Copy, Debug, PartialEq, Eq)]
pub enum UnfinishedCause {
    NoPoint,
    // the lowest point with a successor that is not there
    NoSuccessor(usize),
}
