ghost use Rattle.std.specs.Prelude.{◌≡◌, ℕ, ◌↔◌, List, refl};
ghost use Rattle.recency.specs.Blocks.{has};
ghost use Rattle.recency.specs.Recency.{lru_step};
ghost use Rattle.recency.specs.Rows.{list_of, row_step};
ghost use Rattle.cache.specs.LruLaws.{lru_laws};
ghost use Rattle.cache.specs.LruState.{LruVouches, lru_row};
ghost use Rattle.cache.specs.Outcomes.{outcome_of};
ghost use Rattle.cache.specs.Policies.{LruVouchesFor};

use crate::Cache;
use crate::block_list::BlockList;
use crate::list_cache::ListCache;
use crate::outcome::Outcome;
use crate::policy::Policy;

// Evicts the least recently used block of a set: each list has its blocks from the last accessed on.
#[derive(Drop)]
pub struct LruPolicy;

pub type Lru = ListCache<LruPolicy>;

impl Policy for LruPolicy {
    ghost step = { lru_step };

    ghost row_step = { row_step };

    ghost life = { λ ways. ways };

    ghost vouches = { LruVouchesFor };

    fn life(ways: u8) -> u8 {
        ways
    }

    fn access(list: &mut BlockList, ways: u8, block: u32) -> Outcome {
        list.touch(ways, block)
    }

    ghost row_law = { λ sets w b row. refl };

    ghost laws = { lru_laws };
}

impl Lru {
    // `load`, with what it does and what the cache vouches for in the words of this policy.
    pub fn load_as_lru(&mut self, block: u32) -> Outcome
        ensures hit { result ≡ outcome_of (has block (list_of self.old.sets block (lru_row self.old))) }
        ensures moved { lru_row self.new ≡ row_step self.old.sets self.old.ways block (lru_row self.old) }
        ensures sets { self.new.sets ≡ self.old.sets }
        ensures ways { self.new.ways ≡ self.old.ways }
        ensures vouches { (row : List (List ℕ)) → ⟦<Lru as Cache>⟧.vouches self.old row ↔ LruVouches self.old row }
        ensures moves { (row : List (List ℕ)) → LruVouches self.old row → LruVouches self.new (row_step self.old.sets self.old.ways block row) }
    {
        self.load(block)
    }
}
