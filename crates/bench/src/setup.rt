ghost use Rattle.std.specs.Prelude.{◌≡◌, Some, None, Ok, Err};
ghost use Rattle.task.specs.Tasks.{contents};
ghost use Rattle.ledger.specs.Ledger.{barred};
ghost use Rattle.bench.specs.Faults.{fault_number};
ghost use Rattle.bench.specs.Keeping.{setting_in};

use crate::fault::BenchFault;
use task::task::Task;

// What stays from call to call: the task, the rows of the shortest table, and the sets and life of the cache.
#[derive(Clone, Copy)]
pub struct Setup<'t> {
    pub task: &'t Task,
    pub room: usize,
    pub sets: u8,
    pub life: u8,
}

impl<'t> Setup<'t> {
    // Why no call is obeyed, whatever it is.
    pub(crate) fn bar(&self) -> Result<(), BenchFault>
        ensures { elim result [ Ok _ ↦ barred (setting_in self.now) ≡ None | Err f ↦ barred (setting_in self.now) ≡ Some (fault_number f) ] }
    {
        let parameters = self.task.parameters();
        if self.room < self.task.points().len() {
            return Err(BenchFault::ShortTable);
        }
        if self.sets != parameters.sets {
            return Err(BenchFault::OtherSets);
        }
        if self.life != parameters.ways {
            return Err(BenchFault::OtherLife);
        }
        Ok(())
    }
}
