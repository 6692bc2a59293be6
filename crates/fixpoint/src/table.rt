ghost use Rattle.std.specs.Prelude.{◌≡◌, length};
ghost use Rattle.std.specs.List.{slice_get};
ghost use Rattle.task.specs.Tasks.{contents};
ghost use Rattle.fixpoint.specs.Answers.{Answer};

use crate::RowKind;
use crate::direction::Direction;
use crate::fault::ShortTable;
use crate::solve::Solver;
use task::task::Task;

// Rows that are lent for the time of a call.
#[derive(Drop)]
pub struct Table<'a, R> {
    rows: &'a mut [R],
}

impl<'a, R: Copy> Table<'a, R> {
    pub fn over(rows: &'a mut [R]) -> Table<'a, R>
        ensures { (result.rows.now ≡ rows.old) × (result.rows.ghost_name ≡ rows.entry.ghost_name) }
    {
        Table { rows }
    }

    pub fn len(&self) -> usize
        ensures { result ≡ length self.now.rows.now }
    {
        self.rows.len()
    }

    // The row of point p, or `None` past the last row.
    pub fn row(&self, p: usize) -> Option<R>
        ensures { result ≡ slice_get self.now.rows.now p }
    {
        self.rows.get(p).copied()
    }

    // Settles the first rows, one for each point, whatever the table held. The others stay.
    pub fn settle<K: RowKind<Row = R>>(
        &mut self,
        kind: &K,
        task: &Task,
        direction: Direction,
        notes: &[K::Note],
    ) -> Result<u64, ShortTable>
        ensures answer { Answer (K.meaning kind.now) direction (contents task.now) notes.now self.old.rows.now self.new.rows.now result }
        ensures lent { self.new.rows.ghost_name ≡ self.old.rows.ghost_name }
    {
        let points = task.points();
        let n = points.len();
        if self.rows.len() < n || notes.len() < n {
            return Err(ShortTable);
        }
        let solver = Solver {
            kind,
            direction,
            points,
            notes: &notes[0..n],
        };
        Ok(solver.run(&mut self.rows[0..n]))
    }
}
