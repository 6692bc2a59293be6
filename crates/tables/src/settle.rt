ghost use Rattle.std.specs.Prelude.{◌≡◌, ◌≤◌, length};
ghost use Rattle.task.specs.Tasks.{contents};
ghost use Rattle.fixpoint.specs.Answers.{Solved};

use fixpoint::RowKind;
use fixpoint::direction::Direction;
use fixpoint::table::Table;
use task::task::Task;

// Settles a table that is long enough, with notes enough, and says in how many rounds.
pub(crate) fn settle_one<K: RowKind>(
    table: &mut Table<'_, K::Row>,
    kind: &K,
    task: &Task,
    direction: Direction,
    notes: &[K::Note],
) -> u64
    requires room { length (contents task.now).points ≤ length table.old.rows.now }
    requires noted { length (contents task.now).points ≤ length notes.now }
    ensures solved { Solved (K.meaning kind.now) direction (contents task.now) notes.now table.old.rows.now table.new.rows.now result }
    ensures lent { table.new.rows.ghost_name ≡ table.old.rows.ghost_name }
{
    table.settle(kind, task, direction, notes).unwrap()
}
