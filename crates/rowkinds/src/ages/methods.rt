ghost use Rattle.std.specs.Prelude.{◌≡◌, length};
ghost use Rattle.std.specs.List.{slice_get};
ghost use Rattle.task.specs.Blocks.{distinct_blocks};
ghost use Rattle.task.specs.Tasks.{contents};
ghost use Rattle.rowkinds.specs.Ages.{age_list};
ghost use Rattle.rowkinds.specs.BlockSets.{block_sets, filled_up};

use crate::ages::{AgeKind, Ages};
use crate::sets::block_sets;
use task::task::Task;

impl Ages {
    // The age at a block's index, or `None` from 64 on.
    pub fn age(&self, block: usize) -> Option<u8>
        ensures { result ≡ slice_get (age_list self.now) block }
    {
        self.ages.get(block).copied()
    }
}

impl AgeKind {
    // The kind of the ages of a task's blocks.
    pub fn of(task: &Task) -> AgeKind
        ensures ways { result.ways ≡ (contents task.now).ways }
        ensures blocks { result.blocks ≡ length (distinct_blocks (contents task.now).points) }
        ensures sets { result.sets ≡ filled_up 64 (block_sets (contents task.now)) }
    {
        AgeKind {
            ways: task.parameters().ways,
            blocks: task.blocks().len() as u8,
            sets: block_sets(task),
        }
    }
}
