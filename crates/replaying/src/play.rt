ghost use Rattle.std.specs.Prelude.{IfOk};
ghost use Rattle.task.specs.Tasks.{contents};
ghost use Rattle.tables.specs.Answers.{SameMemory};
ghost use Rattle.tables.specs.Rows.{rows_of, shortest};
ghost use Rattle.bench.specs.Benches.{Built, ledger_in};
ghost use Rattle.bench.specs.Keeping.{setting_with};
ghost use Rattle.replaying.specs.Replays.{Replayed};

use crate::{Played, PlayedRun};
use bench::Bench;
use cache::Cache;
use ledger::Call;
use std::alloc::{AllocError, Global};
use tables::Tables;
use task::task::Task;

// Builds a bench, and makes the calls in their order.
pub fn replay<'t, C: Cache + Drop>(
    heap: Global,
    task: &'t Task,
    tables: &mut Tables<'_>,
    cache: C,
    calls: &[Call],
) -> Result<PlayedRun<'t, C>, AllocError>
    ensures replayed { IfOk result (λ x. Replayed C.Cache (setting_with (contents task.now) (shortest (rows_of tables.old)) (C.sets cache) (C.life cache)) calls.now cache x.played.items x.bench.cache (ledger_in x.bench)) }
    ensures tables { Built (setting_with (contents task.now) (shortest (rows_of tables.old)) (C.sets cache) (C.life cache)) (rows_of tables.old) (rows_of tables.new) }
    ensures lent { SameMemory tables.old tables.new }
{
    let mut bench = Bench::new(task, tables, cache);
    let mut played = Vec::new(heap);
    for call in calls {
        let answer = bench.call(*call);
        let counts = bench.read();
        played.push(Played { answer, counts })?;
    }
    Ok(PlayedRun { bench, played })
}
