ghost use Rattle.std.specs.Prelude.{◌≡◌, length, All, slice_index_or};
ghost use Rattle.std.specs.Result.{result_map_both};
ghost use Rattle.cache.specs.Outcomes.{outcome_of};
ghost use Rattle.cache.specs.Sizes.{legal_sets};
ghost use Rattle.plru.specs.Caches.{Guarded, cache_step, holds_block, life_of, new_cache};
ghost use Rattle.plru.specs.Contents.{contents};
ghost use Rattle.plru.specs.Meaning.{state_of};
ghost use Rattle.plru.specs.Sets.{empty_set};
ghost use Rattle.std.proofs.Common.{arith, rules};
ghost use Rattle.plru.specs.Guarding.{empty_guarded, guarded_held};
ghost use Rattle.plru.specs.Lines.{states_length};

use crate::plru::Plru;
use crate::set::PlruSet;
use crate::tree::Tree;
use cache::Cache;
use cache::fault::CacheFault;
use cache::outcome::Outcome;
use cache::size::check_size;
use std::array;

impl Plru {
    pub const MAX_SETS: u8 = 64;

    // Whether a cache can have so many sets.
    pub fn can_have_sets(sets: u8) -> bool
        ensures { result ≡ legal_sets sets }
    {
        (1..=Self::MAX_SETS).contains(&sets)
    }

    // An empty cache, all of whose bits are 0, or why there is none.
    pub fn new(sets: u8, ways: u8) -> Result<Plru, CacheFault>
        ensures { result_map_both contents (λ e. e) result ≡ new_cache sets ways }
    {
        check_size(sets, ways, |ways| matches!(ways, 2 | 4 | 8))?;
        prove!(Self::can_have_sets(sets));
        Ok(Plru {
            sets,
            tree: Tree { ways },
            lines: empty_lines(),
        })
    }

    // The blocks in the filled ways of a set, in the ways' order; none where there is no such set.
    pub fn blocks(&self, set: u8) -> &[u32]
        ensures { result.now ≡ (slice_index_or (contents self.now).states set empty_set).blocks }
    {
        if set >= self.sets {
            return &[];
        }
        self.lines[set as usize].blocks()
    }

    // An access of any block.
    pub fn load(&mut self, block: u32) -> Outcome
        ensures outcome { result ≡ outcome_of (holds_block (contents self.old) block) }
        ensures moved { contents self.new ≡ cache_step block (contents self.old) }
    {
        let set = (block % self.sets as u32) as usize;
        self.lines[set].access(self.tree, block)
    }
}

impl Cache for Plru {
    ghost sets = { λ c. (contents c).sets };

    ghost life = { λ c. life_of (contents c).ways };

    ghost holds = { λ c b. holds_block (contents c) b };

    ghost vouches = { λ c row. Guarded (contents c) row };

    ghost has_sets = { λ c. (c.some, c.few) };

    ghost has_life = { first_of (Prim.search rules, Prim.grind (arith, Self.row.coded.inj)) };

    ghost vouches_for_empty_lists = { λ c. empty_guarded (contents c) c.some (states_length c.sets c.lines (omega arith)) };

    ghost vouches_for_rows = { λ c row v. v.0 };

    ghost holds_what_it_vouches_for = { λ c row b v h. guarded_held (contents c) c.some (states_length c.sets c.lines (omega arith)) row b v h };

    fn sets(&self) -> u8 {
        self.sets
    }

    fn life(&self) -> u8 {
        self.tree.levels() + 1
    }

    fn access(&mut self, block: u32) -> Outcome {
        self.load(block)
    }
}

fn empty_lines() -> [PlruSet; 64]
    ensures room { length result ≡ 64 }
    ensures empty { All (λ line. state_of line ≡ empty_set) result }
{
    array::from_fn(|_| PlruSet::empty())
}
