ghost use Rattle.std.specs.Prelude.{◌≡◌, [], length, All, Some, None, Ok, Err};
ghost use Rattle.recency.specs.Blocks.{has};
ghost use Rattle.recency.specs.Rows.{empty_row, list_of};
ghost use Rattle.cache.specs.BlockLists.{blocks_of};
ghost use Rattle.cache.specs.ListCaches.{rows_of};
ghost use Rattle.cache.specs.Outcomes.{outcome_of};
ghost use Rattle.cache.specs.Policies.{row_after};
ghost use Rattle.cache.specs.Sizes.{legal_ways, refusal};

use crate::Cache;
use crate::block_list::BlockList;
use crate::fault::CacheFault;
use crate::list_cache::ListCache;
use crate::outcome::Outcome;
use crate::policy::Policy;
use crate::size::check_size;
use std::array;
use std::marker::PhantomData;

impl<P: Policy> ListCache<P> {
    // An empty cache.
    pub fn new(sets: u8, ways: u8) -> Result<Self, CacheFault>
        ensures { elim result [ Ok c ↦ (refusal legal_ways sets ways ≡ None) × (c.sets ≡ sets) × (c.ways ≡ ways) × (rows_of c ≡ empty_row sets) | Err e ↦ refusal legal_ways sets ways ≡ Some e ] }
    {
        check_size(sets, ways, |ways| (1..=8).contains(&ways))?;
        Ok(ListCache {
            sets,
            ways,
            lists: empty_lists(),
            policy: PhantomData,
        })
    }

    // An access of any block, under the policy.
    pub fn load(&mut self, block: u32) -> Outcome
        ensures hit { result ≡ outcome_of (has block (list_of self.old.sets block (rows_of self.old))) }
        ensures moved { rows_of self.new ≡ row_after P.step self.old.sets self.old.ways block (rows_of self.old) }
        ensures row { rows_of self.new ≡ P.row_step self.old.sets self.old.ways block (rows_of self.old) }
        ensures sets { self.new.sets ≡ self.old.sets }
        ensures ways { self.new.ways ≡ self.old.ways }
    {
        let set = (block % self.sets as u32) as usize;
        P::access(&mut self.lists[set], self.ways, block)
    }
}

impl<P: Policy> Cache for ListCache<P> {
    ghost sets = { λ c. c.sets };

    ghost life = { λ c. P.life c.ways };

    ghost holds = { λ c b. has b (list_of c.sets b (rows_of c)) };

    ghost vouches = { λ c row. P.vouches c.sets c.ways (rows_of c) row };

    ghost has_sets = { λ c. (c.some_sets, c.few_sets) };

    ghost has_life = { λ c. P.laws.life_within c.ways c.some_ways c.few_ways };

    ghost vouches_for_empty_lists = { λ c. P.laws.empty c.sets c.ways (rows_of c) c.row };

    ghost vouches_for_rows = { λ c row v. P.laws.rows c.sets c.ways (rows_of c) row c.row v };

    ghost holds_what_it_vouches_for = { λ c row b v. P.laws.held c.sets c.ways (rows_of c) row c.some_sets c.row v b };

    fn sets(&self) -> u8 {
        self.sets
    }

    fn life(&self) -> u8 {
        P::life(self.ways)
    }

    fn access(&mut self, block: u32) -> Outcome {
        self.load(block)
    }
}

fn empty_lists() -> [BlockList; 64]
    ensures room { length result ≡ 64 }
    ensures empty { All (λ list. blocks_of list ≡ []) result }
{
    array::from_fn(|_| BlockList::new())
}
