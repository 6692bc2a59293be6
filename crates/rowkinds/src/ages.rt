mod kind;
mod methods;

ghost use Rattle.std.specs.Prelude.{◌≡◌, ◌≤◌, length};

// The age of each of a task's blocks, 0 to ways, in the order of `Task::blocks`. Past the last block stands `ways`. A row
// is plain data in the caller's memory, without a heap.
#[derive(Clone, Copy, PartialEq, Eq)]
pub struct Ages {
    ages: [u8; 64],
}

// The kind of the ages of a task's blocks: the ways, the number of blocks, and the cache set of each block. Conflict sets have the
// latter two as well; each kind holds just what its meaning is made of, and a struct between them would hide that. The sets
// are an array and no list, since a kind is `Copy` and its contract pins all 64.
#[derive(Clone, Copy)]
pub struct AgeKind {
    ways: u8,
    blocks: u8,
    sets: [u8; 64],
    ghost few: { blocks ≤ 64 },
    ghost room: { length sets ≡ 64 },
}
