// Sets of block indices below 64.
#![tactic(auto)]

ghost use Rattle.std.specs.Prelude.{◌≡◌, ℕ, ◌<◌, ◌≤◌, ◌⊎◌, Decides};
ghost use Rattle.blocksets.specs.Members.{Holds, Iff, joined, no_blocks, size, with_block};

// A set of block indices below 64. An index from 64 on is in no set, and adding it changes nothing.
#[derive(Clone, Copy, PartialEq, Eq)]
pub struct BlockSet {
    // Bit i is 1 where block i is in the set.
    mask: u64,
}

impl BlockSet {
    // The set of no blocks.
    pub fn empty() -> BlockSet
        ensures is { result ≡ no_blocks }
        ensures members { (i : ℕ) → Holds result i → ⊥ }
    {
        BlockSet { mask: 0 }
    }

    // The set with one more block.
    pub fn with(self, block: usize) -> BlockSet
        ensures is { result ≡ with_block self block }
        ensures members { (i : ℕ) → Iff (Holds result i) (Holds self i ⊎ ((i ≡ block) × (block < 64))) }
    {
        if block < 64 {
            BlockSet {
                mask: self.mask | 1 << block,
            }
        } else {
            self
        }
    }

    // The blocks of both sets.
    pub fn union(self, other: BlockSet) -> BlockSet
        ensures is { result ≡ joined self other }
        ensures members { (i : ℕ) → Iff (Holds result i) (Holds self i ⊎ Holds other i) }
    {
        BlockSet {
            mask: self.mask | other.mask,
        }
    }

    // Whether the set has the block.
    pub fn contains(self, block: usize) -> bool
        ensures { Decides result (Holds self block) }
    {
        block < 64 && self.mask >> block & 1 == 1
    }

    // How many blocks the set has.
    pub fn count(self) -> u32
        ensures is { result ≡ size self }
        ensures few { result ≤ 64 }
    {
        self.mask.count_ones()
    }
}
