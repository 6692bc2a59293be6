ghost use Rattle.std.specs.Prelude.{◌≡◌, length, None, slice_index_or};
ghost use Rattle.task.specs.Blocks.{distinct_blocks};
ghost use Rattle.task.specs.Tasks.{contents};
ghost use Rattle.rowkinds.specs.BlockSets.{block_sets, filled_up};
ghost use Rattle.conflicts.specs.Conflicts.{conflict_list};

use crate::{ConflictKind, Conflicts};
use blocksets::BlockSet;
use rowkinds::block_sets;
use task::task::Task;

impl Conflicts {
    // The conflict set at a block's index, if it is not none. From 64 on there is none.
    pub fn set(&self, block: usize) -> Option<BlockSet>
        ensures { result ≡ slice_index_or (conflict_list self.now) block None }
    {
        self.conflicts.get(block).copied().flatten()
    }
}

impl ConflictKind {
    // The kind of the conflict sets of a task's blocks.
    pub fn of(task: &Task) -> ConflictKind
        ensures blocks { result.blocks ≡ length (distinct_blocks (contents task.now).points) }
        ensures sets { result.sets ≡ filled_up 64 (block_sets (contents task.now)) }
    {
        ConflictKind {
            blocks: task.blocks().len() as u8,
            sets: block_sets(task),
        }
    }
}
