ghost use Rattle.std.specs.Prelude.{◌≡◌, ◌≤◌, ◌==◌, length, position};
ghost use Rattle.cache.specs.Outcomes.{outcome_of};
ghost use Rattle.recency.specs.Blocks.{has};
ghost use Rattle.plru.specs.Meaning.{state_of};
ghost use Rattle.plru.specs.Sets.{blocks_filled, empty_set, plru_step, way_to_fill};

use crate::set::PlruSet;
use crate::tree::Tree;
use arrayvec::ArrayVec;
use cache::outcome::Outcome;

impl PlruSet {
    pub fn empty() -> PlruSet
        ensures { state_of result ≡ empty_set }
    {
        PlruSet {
            blocks: ArrayVec::new(),
            bits: 0,
        }
    }

    // The blocks of the filled ways, in the ways' order.
    pub fn blocks(&self) -> &[u32]
        ensures { result.now ≡ (state_of self.now).blocks }
    {
        self.blocks.as_slice()
    }

    // The way that a block is in.
    fn way_of(&self, block: u32) -> Option<usize>
        ensures { result ≡ position (λ b. b == block) (state_of self.now).blocks }
    {
        self.blocks().iter().position(|b| *b == block)
    }

    // An access in a set under a tree of so many ways.
    pub fn access(&mut self, tree: Tree, block: u32) -> Outcome
        requires { length (state_of self.old).blocks ≤ tree.ways }
        ensures hit { result ≡ outcome_of (has block (state_of self.old).blocks) }
        ensures moved { state_of self.new ≡ plru_step tree.ways block (state_of self.old) }
    {
        if let Some(way) = self.way_of(block) {
            self.bits = tree.touch(self.bits, way as u8);
            return Outcome::Hit;
        }
        let way = self.fill(tree, block);
        self.bits = tree.touch(self.bits, way);
        Outcome::Miss
    }

    // Puts a block that is not held into the lowest empty way, else into the one that the bits lead to; says which.
    fn fill(&mut self, tree: Tree, block: u32) -> u8
        requires { length (state_of self.old).blocks ≤ tree.ways }
        ensures way { result ≡ way_to_fill tree.ways (state_of self.old) }
        ensures blocks { (state_of self.new).blocks ≡ blocks_filled tree.ways block (state_of self.old) }
        ensures bits { (state_of self.new).bits ≡ (state_of self.old).bits }
    {
        let way = self.blocks.len() as u8;
        if way < tree.ways {
            self.blocks.push(block);
            return way;
        }
        let way = tree.victim(self.bits);
        self.blocks[way as usize] = block;
        way
    }
}
