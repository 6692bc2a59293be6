ghost use Rattle.std.specs.Prelude.{◌≡◌};
ghost use Rattle.task.specs.Tasks.{contents};
ghost use Rattle.tables.specs.Memory.{rows_in, start_rows};
ghost use Rattle.tables.specs.Rows.{rows_of};

use crate::Tables;
use conflicts::{ConflictKind, Conflicts};
use fixpoint::RowKind;
use rowkinds::ages::{AgeKind, Ages};
use task::task::Task;
use widest::next_uses::{NextUseKind, NextUses};

// Memory for tables of up to N points.
#[derive(Clone, Copy)]
pub struct TableMemory<const N: usize> {
    ages: [Ages; N],
    reuses: [Ages; N],
    conflicts: [Conflicts; N],
    widest: [NextUses; N],
}

impl<const N: usize> TableMemory<N> {
    // Memory that holds start rows.
    pub fn of(task: &Task) -> TableMemory<N>
        ensures { rows_in result ≡ start_rows (contents task.now) N }
    {
        let ages = [AgeKind::of(task).start(); N];
        TableMemory {
            ages,
            reuses: ages,
            conflicts: [ConflictKind::of(task).start(); N],
            widest: [NextUseKind::of(task).start(); N],
        }
    }

    // Lends the memory for tables. What it holds afterwards is left open.
    pub fn lend(&mut self) -> Tables<'_>
        ensures { rows_of result ≡ rows_in self.old }
    {
        Tables::over(
            &mut self.ages,
            &mut self.reuses,
            &mut self.conflicts,
            &mut self.widest,
        )
    }
}
