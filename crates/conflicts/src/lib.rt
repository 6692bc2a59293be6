// The rows of conflict sets that the analysis settles.
#![tactic(auto)]

mod kind;
mod methods;

ghost use Rattle.std.specs.Prelude.{◌≡◌, ◌≤◌, length};

use blocksets::BlockSet;

// The conflict set of each of a task's blocks, or none, in the order of `Task::blocks`. Past the last block stands none.
// A row is plain data in the caller's memory, without a heap.
#[derive(Clone, Copy, PartialEq, Eq)]
pub struct Conflicts {
    conflicts: [Option<BlockSet>; 64],
}

// The kind of the conflict sets of a task's blocks: the number of blocks, and the cache set of each block.
#[derive(Clone, Copy)]
pub struct ConflictKind {
    blocks: u8,
    sets: [u8; 64],
    ghost few: { blocks ≤ 64 },
    ghost room: { length sets ≡ 64 },
}
