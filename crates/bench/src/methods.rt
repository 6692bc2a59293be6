ghost use Rattle.std.specs.Prelude.{◌≡◌};
ghost use Rattle.recency.specs.Rows.{empty_row};
ghost use Rattle.task.specs.Tasks.{contents};
ghost use Rattle.cache.specs.LruState.{lru_row};
ghost use Rattle.tables.specs.Answers.{SameMemory};
ghost use Rattle.tables.specs.Rows.{rows_of, shortest};
ghost use Rattle.ledger.specs.Ledger.{new_ledger};
ghost use Rattle.bench.specs.Benches.{Built, IsExplained, ledger_in, setting_of};
ghost use Rattle.bench.specs.Keeping.{setting_with};

use crate::Bench;
use crate::keeping::kept_numbers;
use crate::setup::Setup;
use cache::Cache;
use cache::lru::Lru;
use ledger::{Counts, State};
use tables::Tables;
use task::task::Task;

impl<'t, C: Cache> Bench<'t, C> {
    // A bench at the task's first point. Where a table is short or the cache does not fit the task, the tables stay as
    // they were, and the bench refuses every call.
    pub fn new(task: &'t Task, tables: &mut Tables<'_>, cache: C) -> Bench<'t, C>
        ensures setting { setting_of result ≡ setting_with (contents task.now) (shortest (rows_of tables.old)) (C.sets cache) (C.life cache) }
        ensures ledger { ledger_in result ≡ new_ledger (setting_of result) }
        ensures cache { result.cache ≡ cache }
        ensures tables { Built (setting_of result) (rows_of tables.old) (rows_of tables.new) }
        ensures lent { SameMemory tables.old tables.new }
        ensures explained { IsExplained result }
    {
        let setup = Setup {
            task,
            room: tables.len(),
            sets: cache.sets(),
            life: cache.life(),
        };
        let resilient = kept_numbers(&setup, tables);
        Bench {
            setup,
            cache,
            resilient,
            state: State::Walking,
            point: 0,
            counts: Counts::default(),
            plain: empty_lists(task),
        }
    }

    // Steps, interruptions, loads, plain loads and charge so far.
    pub fn read(&self) -> Counts
        ensures { result ≡ (ledger_in self.now).counts }
    {
        self.counts
    }

    pub fn into_cache(self) -> C
        ensures { result ≡ self.entry.cache }
    {
        self.cache
    }
}

// The lists of a plain LRU run of the task before its first access.
fn empty_lists(task: &Task) -> Lru
    ensures sets { result.sets ≡ (contents task.now).sets }
    ensures ways { result.ways ≡ (contents task.now).ways }
    ensures empty { lru_row result ≡ empty_row (contents task.now).sets }
{
    let parameters = task.parameters();
    Lru::new(parameters.sets, parameters.ways).unwrap()
}
