ghost use Rattle.std.specs.Prelude.{◌≡◌, true, false, [], ◌∷◌, ◌++◌, Some, None};
ghost use Rattle.recency.specs.Blocks.{has};
ghost use Rattle.recency.specs.Recency.{lru_step, without};
ghost use Rattle.cache.specs.BlockLists.{FitsWays, blocks_of};
ghost use Rattle.cache.specs.FifoSteps.{fifo_step};
ghost use Rattle.cache.specs.Outcomes.{outcome_of};

use crate::block_list::BlockList;
use crate::outcome::Outcome;
use arrayvec::ArrayVec;
use std::mem;

impl BlockList {
    pub(crate) fn new() -> BlockList
        ensures { blocks_of result ≡ [] }
    {
        BlockList {
            blocks: ArrayVec::new(),
        }
    }

    pub(crate) fn contains(&self, block: u32) -> bool
        ensures { result ≡ has block (blocks_of self.now) }
    {
        self.blocks.as_slice().contains(&block)
    }

    // An access under LRU: the block moves to the front, or comes in there.
    pub(crate) fn touch(&mut self, ways: u8, block: u32) -> Outcome
        requires { FitsWays self.old ways }
        ensures hit { result ≡ outcome_of (has block (blocks_of self.old)) }
        ensures moved { blocks_of self.new ≡ lru_step ways block (blocks_of self.old) }
    {
        match move_up(self.blocks.as_mut_slice(), block) {
            None => Outcome::Hit,
            Some(last) => {
                if self.blocks.len() < ways as usize {
                    self.blocks.push(last);
                }
                Outcome::Miss
            }
        }
    }

    // An access under FIFO: a block that is not there comes in at the front.
    pub(crate) fn admit(&mut self, ways: u8, block: u32) -> Outcome
        requires { FitsWays self.old ways }
        ensures hit { result ≡ outcome_of (has block (blocks_of self.old)) }
        ensures moved { blocks_of self.new ≡ fifo_step ways block (blocks_of self.old) }
    {
        if self.contains(block) {
            return Outcome::Hit;
        }
        // on a miss the two policies do the same
        self.touch(ways, block)
    }
}

// In one pass, which ends where the block is met: the block comes to the front, and those before it move one place back.
// Where it is not met the last one has no place left: the answer.
fn move_up(blocks: &mut [u32], block: u32) -> Option<u32>
    ensures { elim result [ None ↦ (has block blocks.old ≡ true) × (blocks.new ≡ block ∷ without block blocks.old) | Some last ↦ (has block blocks.old ≡ false) × (blocks.new ++ last ∷ [] ≡ block ∷ blocks.old) ] }
{
    let mut carry = block;
    for place in blocks {
        let next = mem::replace(place, carry);
        if next == block {
            return None;
        }
        carry = next;
    }
    Some(carry)
}
