ghost use Rattle.std.specs.Prelude.{◌≡◌, ◌<◌, ◌≤◌, true, length, IfOk, nat_eq};
ghost use Rattle.task.specs.Lists.{first_from};
ghost use Rattle.recency.specs.Blocks.{set_of};
ghost use Rattle.task.specs.Blocks.{ListsEachAccessOnce, access_at, access_index, distinct_blocks};
ghost use Rattle.task.specs.Contents.{blank_task};
ghost use Rattle.task.specs.Legal.{legal};
ghost use Rattle.task.specs.Meaning.{all_contents};
ghost use Rattle.task.specs.Tasks.{contents};

use crate::draft::TaskDraft;
use crate::parameters::CacheParameters;
use crate::point::Point;
use crate::task::Task;
use std::alloc::{AllocError, Global};

impl Task {
    // One set, one way, no reload time, and one point without access or successor.
    pub fn blank(heap: Global) -> Result<Task, AllocError>
        ensures { IfOk result (λ t. contents t ≡ blank_task) }
    {
        let mut draft = TaskDraft::reserve(
            heap,
            CacheParameters {
                sets: 1,
                ways: 1,
                reload: 0,
            },
        )?;
        draft.add_point(Point::new(None, &[]).unwrap()).unwrap();
        Ok(draft.finish().unwrap())
    }

    // Every task keeps the limits.
    pub fn parameters(&self) -> CacheParameters
        ensures sets { result.sets ≡ (contents self.now).sets }
        ensures ways { result.ways ≡ (contents self.now).ways }
        ensures reload { result.reload ≡ (contents self.now).reload }
        ensures legal { legal (contents self.now) ≡ true }
    {
        self.draft.parameters()
    }

    pub fn points(&self) -> &[Point]
        ensures value { all_contents result.now ≡ (contents self.now).points }
        ensures many { length result.now ≡ length (contents self.now).points }
        ensures few { length result.now ≤ 128 }
    {
        self.draft.points()
    }

    // The blocks that an interruption may access, rising.
    pub fn evicting(&self) -> &[u32]
        ensures value { result.now ≡ (contents self.now).evicting }
        ensures few { length result.now ≤ 64 }
    {
        self.draft.evicting()
    }

    // Where a block stands among the evicting blocks.
    pub fn evicting_index(&self, block: u32) -> Option<usize>
        ensures { result ≡ first_from 0 (nat_eq block) (contents self.now).evicting }
    {
        index_of(self.evicting(), block)
    }

    // The distinct blocks of the points' accesses, in order of first appearance.
    pub fn blocks(&self) -> &[u32]
        ensures value { result.now ≡ distinct_blocks (contents self.now).points }
        ensures once { ListsEachAccessOnce (contents self.now).points result.now }
        ensures few { length result.now ≤ 64 }
    {
        self.draft.blocks()
    }

    // Where the block of a point's access stands among `blocks`. `None` where the point has no access or is not there.
    pub fn block_index(&self, point: usize) -> Option<usize>
        ensures { result ≡ access_index (distinct_blocks (contents self.now).points) (access_at (contents self.now).points point) }
    {
        let block = self.points().get(point)?.access()?;
        index_of(self.blocks(), block)
    }

    // The cache set that a block belongs to.
    pub fn set_of(&self, block: u32) -> usize
        ensures value { result ≡ set_of (contents self.now).sets block }
        ensures small { result < 64 }
    {
        block as usize % self.parameters().sets as usize
    }
}

fn index_of(blocks: &[u32], block: u32) -> Option<usize>
    ensures { result ≡ first_from 0 (nat_eq block) blocks.now }
{
    blocks.iter().position(|b| block == *b)
}
