ghost use Rattle.std.specs.Prelude.{◌≡◌, ℕ, ◌↔◌, List, refl};
ghost use Rattle.recency.specs.Blocks.{has};
ghost use Rattle.recency.specs.Rows.{list_of, row_step};
ghost use Rattle.cache.specs.FifoState.{FifoVouches, fifo_row};
ghost use Rattle.cache.specs.FifoSteps.{fifo_row_step, fifo_step};
ghost use Rattle.cache.specs.FifoStepsLemmas.{fifo_laws};
ghost use Rattle.cache.specs.Outcomes.{outcome_of};
ghost use Rattle.cache.specs.Policies.{FifoVouchesFor};

use crate::Cache;
use crate::block_list::BlockList;
use crate::list_cache::ListCache;
use crate::outcome::Outcome;
use crate::policy::Policy;

// Evicts the block of a set that came in first: each list has its blocks from the last that came in on.
#[derive(Drop)]
pub struct FifoPolicy;

pub type Fifo = ListCache<FifoPolicy>;

impl Policy for FifoPolicy {
    ghost step = { fifo_step };

    ghost row_step = { fifo_row_step };

    ghost life = { λ ways. 1 };

    ghost vouches = { FifoVouchesFor };

    fn life(_ways: u8) -> u8 {
        1
    }

    fn access(list: &mut BlockList, ways: u8, block: u32) -> Outcome {
        list.admit(ways, block)
    }

    ghost row_law = { λ sets w b row. refl };

    ghost laws = { fifo_laws };
}

impl Fifo {
    // `load`, with what it does and what the cache vouches for in the words of this policy.
    pub fn load_as_fifo(&mut self, block: u32) -> Outcome
        ensures hit { result ≡ outcome_of (has block (list_of self.old.sets block (fifo_row self.old))) }
        ensures moved { fifo_row self.new ≡ fifo_row_step self.old.sets self.old.ways block (fifo_row self.old) }
        ensures sets { self.new.sets ≡ self.old.sets }
        ensures ways { self.new.ways ≡ self.old.ways }
        ensures vouches { (row : List (List ℕ)) → ⟦<Fifo as Cache>⟧.vouches self.old row ↔ FifoVouches self.old row }
        ensures moves { (row : List (List ℕ)) → FifoVouches self.old row → FifoVouches self.new (row_step self.old.sets 1 block row) }
    {
        self.load(block)
    }
}
