ghost use Rattle.std.specs.Prelude.{◌≡◌};
ghost use Rattle.cells.specs.Cells.{both};
ghost use Rattle.widest.specs.NextUses.{larger, next_uses_meaning};
ghost use Rattle.widest.specs.Laws.{next_uses_laws};

use crate::next_uses::{NextUse, NextUseKind, NextUses};
use fixpoint::RowKind;
use std::array;

impl RowKind for NextUseKind {
    type Row = NextUses;

    // The point's access, if it has one.
    type Note = Option<NextUse>;

    ghost meaning = { λ k. next_uses_meaning k.blocks };

    ghost lawful = { λ k. next_uses_laws k.blocks };

    fn start(&self) -> NextUses {
        NextUses { counts: [None; 64] }
    }

    fn merge(&self, a: &NextUses, b: &NextUses) -> NextUses {
        NextUses {
            counts: array::from_fn(|i| larger_of(a.counts[i], b.counts[i])),
        }
    }

    fn advance(&self, row: &NextUses, note: &Option<NextUse>) -> NextUses {
        let mut after = *row;
        match *note {
            Some(access) if access.block < self.blocks as usize => {
                after.counts[access.block] = access.conflicts;
            }
            _ => {}
        }
        after
    }

    fn height(&self) -> u32 {
        self.blocks as u32 * self.blocks as u32
    }

    fn same(&self, a: &NextUses, b: &NextUses) -> bool {
        a == b
    }
}

// `None` is lowest.
fn larger_of(a: Option<u8>, b: Option<u8>) -> Option<u8>
    ensures { result ≡ larger a b }
{
    a.max(b)
}
