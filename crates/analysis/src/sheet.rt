ghost use Rattle.std.specs.Prelude.{◌≡◌, ◌≤◌, length};
ghost use Rattle.task.specs.Tasks.{contents};
ghost use Rattle.tables.specs.Rows.{rows_of, shortest};
ghost use Rattle.analysis.specs.Sheets.{largest, sheet_below};

use numbers::PointNumbers;
use tables::Tables;
use task::task::Task;

// Writes the record of each point to its place. That there is a row for each stands in a clause, since tables do not know the task.
pub(crate) fn fill(task: &Task, tables: &Tables<'_>, sheet: &mut [PointNumbers])
    requires room { length sheet.old ≡ length (contents task.now).points }
    requires settled { length (contents task.now).points ≤ shortest (rows_of tables.now) }
    ensures { sheet.new ≡ sheet_below (contents task.now) (rows_of tables.now) (length (contents task.now).points) }
{
    for (p, record) in sheet.iter_mut().enumerate() {
        *record = tables.numbers_at(task, p).unwrap();
    }
}

// The largest resilient number.
pub(crate) fn largest_of(sheet: &[PointNumbers]) -> u16
    ensures { result ≡ largest sheet.now }
{
    let mut most = 0;
    for numbers in sheet {
        most = numbers.resilient.max(most);
    }
    most
}
