ghost use Rattle.std.specs.Prelude.{ℕ, ◌+◌, ◌≤◌, min, max};
ghost use Rattle.std.proofs.Common.{rules};

use crate::RowKind;
use crate::direction::Direction;
use crate::fault::ShortTable;
use crate::table::Table;
use std::alloc::Global;
use std::test::Fail;
use task::draft::TaskDraft;
use task::parameters::CacheParameters;
use task::point::Point;
use task::task::Task;

// A number that each note raises, up to a cap.
#[derive(Clone, Copy)]
struct Counter {
    cap: u8,
}

impl RowKind for Counter {
    type Row = u8;

    type Note = u8;

    ghost meaning = { λ k. record { own_row = λ r. r ≤ k.cap; own_note = λ n. Unit {0}; at_or_before = λ a b. a ≤ b; start = 0; merge = max; advance = λ r n. min (r + n) k.cap; rank = λ r. r; height = k.cap } };

    ghost lawful = { Prim.search rules };

    fn start(&self) -> u8 {
        0
    }

    fn merge(&self, a: &u8, b: &u8) -> u8 {
        *a.max(b)
    }

    fn advance(&self, row: &u8, note: &u8) -> u8 {
        row.saturating_add(*note).min(self.cap)
    }

    fn height(&self) -> u32 {
        self.cap as u32
    }

    fn same(&self, a: &u8, b: &u8) -> bool {
        a == b
    }
}

// Point 0 leads to point 1, and back.
fn two_points(heap: Global) -> Result<Task, Fail> {
    let cache = CacheParameters {
        sets: 1,
        ways: 1,
        reload: 0,
    };
    let mut draft = TaskDraft::new(heap, cache)?;
    for next in [1, 0] {
        let point = Point::new(None, &[next]).ok_or_else(|| Fail::new("no point"))?;
        draft.add_point(point)?;
    }
    draft.finish().map_err(|_| Fail::new("no task"))
}

// The table held other rows before; that past the last point stays.
#[test]
fn rounds_and_rows(rt: HostRuntime) -> Result<(), Fail> {
    let task = two_points(rt.alloc())?;
    let cases = [
        (Direction::Forward, [2, 0], 5, [5, 5, 9]),
        (Direction::Backward, [2, 0], 4, [5, 5, 9]),
        (Direction::Forward, [0, 0], 1, [0, 0, 9]),
    ];
    for (direction, notes, rounds, settled) in cases {
        let mut rows = [7, 8, 9];
        let mut table = Table::over(&mut rows);
        let settled_in = table.settle(&Counter { cap: 5 }, &task, direction, &notes);
        assert_eq!(rt; settled_in, Ok(rounds));
        assert_eq!(rt; table.len(), 3);
        assert_eq!(rt; table.row(2), Some(9));
        assert_eq!(rt; table.row(3), None);
        assert_eq!(rt; rows, settled);
    }
    Ok(())
}

// Too few rows, or too few notes: the table stays.
#[test]
fn refusals(rt: HostRuntime) -> Result<(), Fail> {
    let task = two_points(rt.alloc())?;
    for (n, notes) in [(1, 2), (2, 1), (0, 0)] {
        let mut rows = [7, 8];
        let mut table = Table::over(&mut rows[0..n]);
        let notes = &[2, 0][0..notes];
        let settled_in = table.settle(&Counter { cap: 5 }, &task, Direction::Forward, notes);
        assert_eq!(rt; settled_in.map_err(ShortTable::number), Err(10));
        assert_eq!(rt; rows, [7, 8]);
    }
    Ok(())
}
