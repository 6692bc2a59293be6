// A bench: replays runs of a task on a cache, with interruptions.
#![tactic(auto)]

mod actions;
pub mod answer;
mod calls;
pub mod fault;
mod keeping;
mod methods;
mod setup;

ghost use Rattle.std.specs.Prelude.{◌≡◌, ◌*◌, ◌<◌, ◌≤◌, length};
ghost use Rattle.task.specs.Tasks.{contents};
ghost use Rattle.bench.specs.Keeping.{Knows, setting_in};

use cache::Cache;
use cache::lru::Lru;
use ledger::{Counts, State};
use setup::Setup;

// A task at one of its points, on a cache. It keeps each point's resilient number, and the lists of a plain LRU run.
#[derive(Drop)]
pub struct Bench<'t, C: Cache> {
    setup: Setup<'t>,
    cache: C,
    // by point, in fixed memory, since a bench never lacks any; that a history explains the bench is no invariant, since in the
    // midst of a step none does
    resilient: [u16; 128],
    state: State,
    point: usize,
    counts: Counts,
    plain: Lru,
    ghost inside: { point < length (contents setup.task.now).points },
    ghost numbers: { length resilient ≡ 128 },
    ghost knows: { Knows (setting_in setup) resilient },
    ghost few_steps: { counts.steps ≤ 60000 },
    ghost few_loads: { counts.loads ≤ counts.steps },
    ghost few_plain: { counts.plain ≤ counts.steps },
    ghost few_interruptions: { counts.interruptions ≤ 1000 },
    ghost small_charge: { counts.charge ≤ 65535 * counts.interruptions },
    ghost plain_sets: { plain.sets ≡ (contents setup.task.now).sets },
    ghost plain_ways: { plain.ways ≡ (contents setup.task.now).ways },
}
