// The analysis of a task: how many loads one interruption at each point can make it repeat.
#![tactic(auto)]

mod sheet;

ghost use Rattle.task.specs.Tasks.{contents};
ghost use Rattle.tables.specs.Answers.{SameMemory};
ghost use Rattle.tables.specs.Rows.{rows_of};
ghost use Rattle.analysis.specs.Answers.{Analysing};

use crate::sheet::{fill, largest_of};
use fixpoint::fault::ShortTable;
use numbers::PointNumbers;
use tables::{Rounds, Tables};
use task::task::Task;

// How many rounds each table took, and the largest resilient number of all points.
#[derive(Clone, Copy)]
pub struct Analysis {
    pub rounds: Rounds,
    pub largest: u16,
}

// Settles the tables, and fills the first records of the sheet, one for each point. Later rows and records stay.
pub fn analyse(
    task: &Task,
    tables: &mut Tables<'_>,
    sheet: &mut [PointNumbers],
) -> Result<Analysis, ShortTable>
    ensures answer { Analysing (contents task.now) (rows_of tables.old) (rows_of tables.new) sheet.old sheet.new result }
    ensures lent { SameMemory tables.old tables.new }
{
    let n = task.points().len();
    if sheet.len() < n {
        return Err(ShortTable);
    }
    let rounds = tables.settle(task)?;
    let records = &mut sheet[0..n];
    fill(task, tables, records);
    Ok(Analysis {
        rounds,
        largest: largest_of(records),
    })
}
