ghost use Rattle.task.specs.Tasks.{contents};
ghost use Rattle.answer.specs.Sheets.{HoldsTheSheet};

use crate::sheet::TaskSheet;
use analysis::{Analysis, analyse};
use numbers::PointNumbers;
use tables::TableMemory;
use task::task::Task;

impl TaskSheet {
    // Analyses a task with tables of its own.
    pub fn of(task: &Task) -> TaskSheet
        ensures { HoldsTheSheet (contents task.now) result }
    {
        let mut memory = TableMemory::<128>::of(task);
        let mut records = [PointNumbers::default(); 128];
        let mut tables = memory.lend();
        let Analysis { rounds, largest } = analyse(task, &mut tables, &mut records).unwrap();
        TaskSheet {
            records,
            largest,
            rounds,
        }
    }
}
