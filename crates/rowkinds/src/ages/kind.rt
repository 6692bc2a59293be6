ghost use Rattle.std.specs.Prelude.{◌≡◌, ◌<◌, min, slice_index};
ghost use Rattle.cells.specs.Cells.{both, each};
ghost use Rattle.rowkinds.specs.Ages.{age_after, ages_meaning, grown};
ghost use Rattle.rowkinds.specs.Laws.{ages_laws};

use crate::ages::{AgeKind, Ages};
use fixpoint::RowKind;
use std::array;

impl RowKind for AgeKind {
    type Row = Ages;

    // The index of the block that the point accesses.
    type Note = Option<usize>;

    ghost meaning = { λ k. ages_meaning k.ways k.blocks k.sets };

    ghost lawful = { λ k. ages_laws k.ways k.blocks k.sets };

    fn start(&self) -> Ages {
        Ages {
            ages: [self.ways; 64],
        }
    }

    fn merge(&self, a: &Ages, b: &Ages) -> Ages {
        Ages {
            ages: array::from_fn(|i| a.ages[i].min(b.ages[i])),
        }
    }

    fn advance(&self, row: &Ages, note: &Option<usize>) -> Ages {
        match *note {
            Some(block) if block < self.blocks as usize => Ages {
                ages: array::from_fn(|i| self.after_access(row, block, i)),
            },
            _ => *row,
        }
    }

    fn height(&self) -> u32 {
        self.blocks as u32 * self.ways as u32
    }

    fn same(&self, a: &Ages, b: &Ages) -> bool {
        a == b
    }
}

impl AgeKind {
    // The age of block i after an access of block b.
    fn after_access(&self, row: &Ages, b: usize, i: usize) -> u8
        requires accessed { b < 64 }
        requires inside { i < 64 }
        ensures { result ≡ age_after self.now.ways self.now.sets b (slice_index row.now.ages b) i (slice_index row.now.ages i) }
    {
        if i == b {
            return 0;
        }
        let near = self.sets[i] == self.sets[b];
        grow(self.ways, near, row.ages[b], row.ages[i])
    }
}

// The age of a block other than the accessed one, whose age was old.
fn grow(ways: u8, near: bool, old: u8, age: u8) -> u8
    ensures { result ≡ grown ways near old age }
{
    if near && age <= old {
        if age < ways { age + 1 } else { ways }
    } else {
        age
    }
}
