ghost use Rattle.std.specs.Prelude.{◌≡◌};
ghost use Rattle.task.specs.Tasks.{contents};
ghost use Rattle.tables.specs.Answers.{Numbered, SameMemory, Settling};
ghost use Rattle.tables.specs.Rows.{rows_of, rows_with, shortest};

use crate::notes::{access_notes, use_note, use_notes};
use crate::settle::settle_one;
use crate::{Rounds, Tables};
use conflicts::{ConflictKind, Conflicts};
use fixpoint::RowKind;
use fixpoint::direction::Direction;
use fixpoint::fault::ShortTable;
use fixpoint::table::Table;
use numbers::{PointNumbers, View, point_numbers};
use rowkinds::ages::{AgeKind, Ages};
use task::task::Task;
use widest::next_uses::{NextUseKind, NextUses};

impl<'a> Tables<'a> {
    // Tables over lent rows.
    pub fn over(
        ages: &'a mut [Ages],
        reuses: &'a mut [Ages],
        conflicts: &'a mut [Conflicts],
        widest: &'a mut [NextUses],
    ) -> Tables<'a>
        ensures rows { rows_of result ≡ rows_with ages.old reuses.old conflicts.old widest.old }
        ensures lent_ages { result.ages.rows.ghost_name ≡ ages.entry.ghost_name }
        ensures lent_reuses { result.reuses.rows.ghost_name ≡ reuses.entry.ghost_name }
        ensures lent_conflicts { result.conflicts.rows.ghost_name ≡ conflicts.entry.ghost_name }
        ensures lent_widest { result.widest.rows.ghost_name ≡ widest.entry.ghost_name }
    {
        Tables {
            ages: Table::over(ages),
            reuses: Table::over(reuses),
            conflicts: Table::over(conflicts),
            widest: Table::over(widest),
        }
    }

    // The number of rows of the shortest table.
    pub fn len(&self) -> usize
        ensures { result ≡ shortest (rows_of self.now) }
    {
        let a = self.ages.len().min(self.reuses.len());
        let b = self.conflicts.len().min(self.widest.len());
        a.min(b)
    }

    // Settles the first rows of each table, one for each point, whatever the tables held. The others stay.
    pub fn settle(&mut self, task: &Task) -> Result<Rounds, ShortTable>
        ensures answer { Settling (contents task.now) (rows_of self.old) (rows_of self.new) result }
        ensures lent { SameMemory self.old self.new }
    {
        let n = task.points().len();
        if self.len() < n {
            return Err(ShortTable);
        }
        let kind = AgeKind::of(task);
        let notes = access_notes(task);
        let ages = settle_one(&mut self.ages, &kind, task, Direction::Forward, &notes);
        let reuses = settle_one(&mut self.reuses, &kind, task, Direction::Backward, &notes);
        let conflicts = settle_one(
            &mut self.conflicts,
            &ConflictKind::of(task),
            task,
            Direction::Forward,
            &notes,
        );
        let uses = use_notes(&self.conflicts, &notes);
        let widest = settle_one(
            &mut self.widest,
            &NextUseKind::of(task),
            task,
            Direction::Backward,
            &uses,
        );
        Ok(Rounds {
            ages,
            reuses,
            conflicts,
            widest,
        })
    }

    // The four numbers of a point, where each table has a row for it.
    pub fn numbers_at(&self, task: &Task, p: usize) -> Option<PointNumbers>
        ensures { Numbered (contents task.now) (rows_of self.now) p result }
    {
        let ages = self.ages.row(p)?;
        let reuses = self.reuses.row(p)?;
        let conflicts = self.conflicts.row(p)?;
        let widest = self.widest.row(p)?;
        let note = task.block_index(p);
        let view = View {
            ages,
            reuses: AgeKind::of(task).advance(&reuses, &note),
            uses: NextUseKind::of(task).advance(&widest, &use_note(&conflicts, note)),
        };
        Some(point_numbers(task, &view))
    }
}
