// How many blocks of each cache set pass a test, in fixed memory, since the numbers never lack any.
ghost use Rattle.std.specs.Prelude.{ℕ, ◌<◌, ◌≤◌, ◌≡◌, Bool, ◌&&◌, length};
ghost use Rattle.task.specs.Blocks.{distinct_blocks};
ghost use Rattle.task.specs.Tasks.{contents};
ghost use Rattle.numbers.specs.Counts.{Counted};
ghost use Rattle.numbers.specs.Numbers.{is_evicting_in, is_in, is_reached_in, is_useful_in};

use crate::view::View;
use task::task::Task;

// How many evicting blocks each cache set has.
pub(crate) fn evicting_in_sets(task: &Task) -> [u8; 64]
    ensures { Counted result (is_evicting_in (contents task.now)) (length (contents task.now).evicting) }
{
    let blocks = task.evicting();
    count_in_sets(task, blocks, |_, _| true)
}

// How many of the task's blocks in each cache set are useful.
pub(crate) fn useful_in_sets(task: &Task, view: &View) -> [u8; 64]
    ensures { Counted result (is_useful_in (contents task.now) view.now.ages view.now.reuses) (length (distinct_blocks (contents task.now).points)) }
{
    let ways = task.parameters().ways;
    let blocks = task.blocks();
    count_in_sets(task, blocks, |i, _| view.is_useful(ways, i))
}

// How many of the useful blocks in each cache set an interruption can reach, from how many evicting blocks each set has.
pub(crate) fn reached_in_sets(task: &Task, view: &View, evicting: &[u8; 64]) -> [u8; 64]
    requires { Counted evicting.now (is_evicting_in (contents task.now)) (length (contents task.now).evicting) }
    ensures { Counted result (is_reached_in (contents task.now) view.now) (length (distinct_blocks (contents task.now).points)) }
{
    let ways = task.parameters().ways;
    let blocks = task.blocks();
    count_in_sets(
        task,
        blocks,
        |i, set| view.is_at_risk(ways, evicting[set], i),
    )
}

// How many of the blocks in each cache set pass a test, which is told a block's index and its cache set.
fn count_in_sets<F: Fn(usize, usize) -> bool>(task: &Task, blocks: &[u32], test: F) -> [u8; 64]
    requires few { length blocks.now ≤ 64 }
    requires callable { (i s : ℕ) → s < 64 → F.pre test i s }
    ensures { (passes : ℕ → ℕ → Bool) → ((i s : ℕ) (r : Bool) → s < 64 → F.post test i s r → r ≡ passes s i) → Counted result (λ s i. is_in (contents task.now).sets blocks.now s i && passes s i) (length blocks.now) }
{
    let mut counts = [0; 64];
    for (i, block) in blocks.iter().enumerate() {
        let set = task.set_of(*block);
        if test(i, set) {
            counts[set] += 1;
        }
    }
    counts
}
