mod kind;
mod methods;

ghost use Rattle.std.specs.Prelude.{◌≤◌};

// For each of a task's blocks, in the order of `Task::blocks`, how many blocks conflict with it at its next use: the
// largest number over the paths ahead, or `None`. Past the last block stands `None`. A row is plain data in the caller's
// memory, without a heap.
#[derive(Clone, Copy, PartialEq, Eq)]
pub struct NextUses {
    counts: [Option<u8>; 64],
}

// A point's access: the index of the block, and how many blocks conflict with it there, or `None`.
#[derive(Clone, Copy)]
pub struct NextUse {
    pub block: usize,
    pub conflicts: Option<u8>,
}

// The kind of the widest next uses of a task's blocks, by the number of blocks.
#[derive(Clone, Copy)]
pub struct NextUseKind {
    blocks: u8,
    ghost few: { blocks ≤ 64 },
}
