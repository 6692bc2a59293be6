ghost use Rattle.std.specs.Prelude.{◌≡◌, length, None, slice_index_or};
ghost use Rattle.task.specs.Blocks.{distinct_blocks};
ghost use Rattle.task.specs.Tasks.{contents};
ghost use Rattle.widest.specs.NextUses.{count_list};

use crate::next_uses::{NextUseKind, NextUses};
use task::task::Task;

impl NextUses {
    // How many blocks conflict with a block at its next use, by the block's index, or `None`.
    pub fn conflicts(&self, block: usize) -> Option<u8>
        ensures { result ≡ slice_index_or (count_list self.now) block None }
    {
        *self.counts.get(block)?
    }
}

impl NextUseKind {
    // The kind of the widest next uses of a task's blocks.
    pub fn of(task: &Task) -> NextUseKind
        ensures { result.blocks ≡ length (distinct_blocks (contents task.now).points) }
    {
        NextUseKind {
            blocks: task.blocks().len() as u8,
        }
    }
}
