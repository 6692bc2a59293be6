ghost use Rattle.std.specs.Prelude.{◌≡◌};
ghost use Rattle.task.specs.Tasks.{contents};
ghost use Rattle.rowkinds.specs.BlockSets.{block_sets, filled_up};

use task::task::Task;

// The cache set of each of a task's blocks, in their order. Past the last block stands 0.
pub fn block_sets(task: &Task) -> [u8; 64]
    ensures { result ≡ filled_up 64 (block_sets (contents task.now)) }
{
    let blocks = task.blocks();
    let mut sets = [0; 64];
    // one look-up a block: asking for each of the 64 places took longer for a small task
    for (i, block) in blocks.iter().enumerate() {
        sets[i] = task.set_of(*block) as u8;
    }
    sets
}
