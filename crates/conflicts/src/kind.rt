ghost use Rattle.std.specs.Prelude.{◌≡◌, ◌<◌, None, slice_index_or};
ghost use Rattle.cells.specs.Cells.{both, each};
ghost use Rattle.conflicts.specs.Conflicts.{conflict_after, conflicts_meaning, extended, union_of};
ghost use Rattle.conflicts.specs.Laws.{conflicts_laws};

use crate::{ConflictKind, Conflicts};
use blocksets::BlockSet;
use fixpoint::RowKind;
use std::array;

impl RowKind for ConflictKind {
    type Row = Conflicts;

    // The index of the block that the point accesses.
    type Note = Option<usize>;

    ghost meaning = { λ k. conflicts_meaning k.blocks k.sets };

    ghost lawful = { λ k. conflicts_laws k.blocks k.sets };

    fn start(&self) -> Conflicts {
        Conflicts {
            conflicts: [None; 64],
        }
    }

    fn merge(&self, a: &Conflicts, b: &Conflicts) -> Conflicts {
        Conflicts {
            conflicts: array::from_fn(|i| unite(a.conflicts[i], b.conflicts[i])),
        }
    }

    fn advance(&self, row: &Conflicts, note: &Option<usize>) -> Conflicts {
        match *note {
            None => *row,
            Some(block) if block < self.blocks as usize => Conflicts {
                conflicts: array::from_fn(|i| self.after_access(row, block, i)),
            },
            Some(_) => *row,
        }
    }

    fn height(&self) -> u32 {
        self.blocks as u32 * self.blocks as u32
    }

    fn same(&self, a: &Conflicts, b: &Conflicts) -> bool {
        a == b
    }
}

impl ConflictKind {
    // The conflict set of block i after an access of block b.
    fn after_access(&self, row: &Conflicts, b: usize, i: usize) -> Option<BlockSet>
        requires accessed { b < 64 }
        requires inside { i < 64 }
        ensures { result ≡ conflict_after self.now.sets b i (slice_index_or row.now.conflicts i None) }
    {
        if i == b {
            return Some(BlockSet::empty());
        }
        let near = self.sets[i] == self.sets[b];
        extend(near, b, row.conflicts[i])
    }
}

// The union, where none adds nothing.
fn unite(a: Option<BlockSet>, b: Option<BlockSet>) -> Option<BlockSet>
    ensures { result ≡ union_of a b }
{
    match (a, b) {
        (None, _) => b,
        (Some(_), None) => a,
        (Some(s), Some(t)) => Some(s.union(t)),
    }
}

// The conflict set of a block other than the accessed one, b.
fn extend(near: bool, b: usize, conflict: Option<BlockSet>) -> Option<BlockSet>
    ensures { result ≡ extended near b conflict }
{
    match (near, conflict) {
        (true, Some(s)) => Some(s.with(b)),
        (true, None) => None,
        (false, _) => conflict,
    }
}
