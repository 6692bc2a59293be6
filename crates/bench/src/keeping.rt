ghost use Rattle.std.specs.Prelude.{◌≡◌, ℕ, ◌<◌, ◌≤◌, length, if◌then◌else◌, nat_lt, slice_index};
ghost use Rattle.task.specs.Tasks.{contents};
ghost use Rattle.tables.specs.Answers.{AllSettled, SameMemory};
ghost use Rattle.tables.specs.Rows.{numbers_at, rows_of, shortest};
ghost use Rattle.tables.specs.declared.Rounds.{Rounds};
ghost use Rattle.ledger.specs.Ledger.{resilient_at};
ghost use Rattle.bench.specs.Benches.{Built};
ghost use Rattle.bench.specs.Keeping.{Knows, setting_in};

use crate::setup::Setup;
use std::array;
use tables::Tables;
use task::task::Task;

// What a new bench keeps: each point's resilient number, by tables that it settles; or zeros, where it is barred and the
// tables stay.
pub(crate) fn kept_numbers(setup: &Setup<'_>, tables: &mut Tables<'_>) -> [u16; 128]
    requires { setup.now.room ≡ shortest (rows_of tables.old) }
    ensures room { length result ≡ 128 }
    ensures knows { Knows (setting_in setup.now) result }
    ensures tables { Built (setting_in setup.now) (rows_of tables.old) (rows_of tables.new) }
    ensures lent { SameMemory tables.old tables.new }
{
    match setup.bar() {
        Ok(()) => settled_numbers(setup.task, tables),
        Err(_) => [0; 128],
    }
}

// Settles the tables, which have a row for each point (each private call says so, since tables do not know the task), and
// answers each point's resilient number. Past the last point
// stands 0.
fn settled_numbers(task: &Task, tables: &mut Tables<'_>) -> [u16; 128]
    requires { length (contents task.now).points ≤ shortest (rows_of tables.old) }
    ensures room { length result ≡ 128 }
    ensures numbers { (p : ℕ) → p < length (contents task.now).points → slice_index result p ≡ resilient_at (contents task.now) p }
    ensures past { (p : ℕ) → length (contents task.now).points ≤ p → slice_index result p ≡ 0 }
    ensures settled { (rounds : Rounds) × AllSettled (contents task.now) (rows_of tables.old) (rows_of tables.new) rounds }
    ensures lent { SameMemory tables.old tables.new }
{
    tables.settle(task).unwrap();
    resilient_numbers(task, tables)
}

// The resilient number that the tables give each point. Past the last point stands 0, whatever rows the tables have there.
// Clauses see an array as a list, so that each says its length.
fn resilient_numbers(task: &Task, tables: &Tables<'_>) -> [u16; 128]
    requires { length (contents task.now).points ≤ shortest (rows_of tables.now) }
    ensures room { length result ≡ 128 }
    ensures numbers { (p : ℕ) → p < length (contents task.now).points → slice_index result p ≡ (numbers_at (contents task.now) (rows_of tables.now) p).resilient }
    ensures past { (p : ℕ) → length (contents task.now).points ≤ p → slice_index result p ≡ 0 }
{
    array::from_fn(|p| resilient_number(task, tables, p))
}

// The resilient number that the tables give a point, and 0 past the last point, where nothing is computed, or past their
// last row.
fn resilient_number(task: &Task, tables: &Tables<'_>, p: usize) -> u16
    ensures { result ≡ (if nat_lt p (length (contents task.now).points) then (if nat_lt p (shortest (rows_of tables.now)) then (numbers_at (contents task.now) (rows_of tables.now) p).resilient else 0) else 0) }
{
    if p >= task.points().len() {
        return 0;
    }
    tables
        .numbers_at(task, p)
        .map_or(0, |numbers| numbers.resilient)
}
