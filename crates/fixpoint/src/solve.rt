// The solver: rounds over a table with a row for each point, until one changes nothing.
ghost use Rattle.std.specs.Prelude.{◌≡◌, ◌<◌, ◌≤◌, true, false, length, replicate, ◌≢◌};
ghost use Rattle.std.specs.List.{AllByRecursion};
ghost use Rattle.task.specs.Meaning.{all_contents};
ghost use Rattle.fixpoint.specs.Graph.{is_input};
ghost use Rattle.fixpoint.specs.Rounds.{after_rounds, job_of, merged, round};
ghost use Rattle.fixpoint.specs.Settled.{Settled};

use crate::RowKind;
use crate::direction::Direction;
use task::point::Point;

// What is to be settled: rows of a kind over points, with a note for each of them. The rows change from call to call, so that each
// call is lent them, and says how many there are.
#[derive(Drop)]
pub(crate) struct Solver<'a, K: RowKind> {
    pub(crate) kind: &'a K,
    pub(crate) direction: Direction,
    pub(crate) points: &'a [Point],
    pub(crate) notes: &'a [K::Note],
    ghost noted: { length notes.now ≡ length points.now },
}

impl<'a, K: RowKind> Solver<'a, K> {
    // Goes round from the start rows until a round changes nothing, and says how many rounds that took. With notes that are
    // not the kind's own the rounds might change the table for ever, so that they are counted off.
    pub(crate) fn run(&self, rows: &mut [K::Row]) -> u64
        requires few { length self.now.points.now ≤ 128 }
        requires filled { length rows.old ≡ length self.now.points.now }
        ensures value { rows.new ≡ after_rounds (K.meaning self.now.kind.now) (job_of self.now.direction (all_contents self.now.points.now) self.now.notes.now) result }
        ensures settled { AllByRecursion (K.meaning self.now.kind.now).own_note self.now.notes.now → Settled (K.meaning self.now.kind.now) (job_of self.now.direction (all_contents self.now.points.now) self.now.notes.now) result rows.new }
    {
        self.begin(rows);
        let most = self.points.len() as u64 * self.kind.height() as u64 + 1;
        for round in 1..=most {
            if !self.go_round(rows) {
                return round;
            }
        }
        most
    }

    // Gives every point the start row.
    fn begin(&self, rows: &mut [K::Row])
        ensures { rows.new ≡ replicate (length rows.old) (K.meaning self.now.kind.now).start }
    {
        let start = self.kind.start();
        for row in rows {
            *row = start;
        }
    }

    // Visits each point once, and says whether a row has changed.
    fn go_round(&self, rows: &mut [K::Row]) -> bool
        requires { length rows.old ≡ length self.now.points.now }
        ensures table { rows.new ≡ round (K.meaning self.now.kind.now) (job_of self.now.direction (all_contents self.now.points.now) self.now.notes.now) rows.old }
        ensures idle { result ≡ false → rows.new ≡ rows.old }
        ensures moved { result ≡ true → rows.new ≢ rows.old }
    {
        let n = self.points.len();
        let mut changed = false;
        // the order depends on the direction, so that a range alone does not give it
        for k in 0..n {
            let p = self.direction.visited_at(n, k);
            let new = self.gather(rows, p);
            let kept = self.kind.same(&rows[p], &new);
            rows[p] = new;
            changed |= !kept;
        }
        changed
    }

    // The merge, beginning from the start row, of the advanced rows of the inputs of p.
    fn gather(&self, rows: &[K::Row], p: usize) -> K::Row
        requires filled { length rows.now ≡ length self.now.points.now }
        requires inside { p < length self.now.points.now }
        ensures { result ≡ merged (K.meaning self.now.kind.now) (job_of self.now.direction (all_contents self.now.points.now) self.now.notes.now) rows.now p }
    {
        let mut all = self.kind.start();
        for (q, row) in rows.iter().enumerate() {
            if self.is_input(p, q) {
                all = self
                    .kind
                    .merge(&all, &self.kind.advance(row, &self.notes[q]));
            }
        }
        all
    }

    fn is_input(&self, p: usize, q: usize) -> bool
        requires { (p < length self.now.points.now) × (q < length self.now.points.now) }
        ensures { result ≡ is_input self.now.direction (all_contents self.now.points.now) p q }
    {
        match self.direction {
            Direction::Forward => self.points[q].leads_to(p),
            Direction::Backward => self.points[p].leads_to(q),
        }
    }
}
