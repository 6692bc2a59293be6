// Replays a list of calls on a new bench.
#![tactic(auto)]

mod play;

pub use self::play::replay;
use bench::Bench;
use bench::answer::Answer;
use bench::fault::BenchFault;
use cache::Cache;
use ledger::Counts;

// What a call said, and the counts after it.
#[derive(Clone, Copy, Debug, PartialEq, Eq)]
pub struct Played {
    pub answer: Result<Answer, BenchFault>,
    pub counts: Counts,
}

// The bench at the end, and what each call said.
#[derive(Drop)]
pub struct PlayedRun<'t, C: Cache> {
    pub bench: Bench<'t, C>,
    pub played: Vec<Played>,
}
