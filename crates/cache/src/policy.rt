ghost use Rattle.std.specs.Prelude.{◌≡◌, ℕ, ◌≤◌, List};
ghost use Rattle.recency.specs.Blocks.{has};
ghost use Rattle.cache.specs.BlockLists.{FitsWays, blocks_of};
ghost use Rattle.cache.specs.Outcomes.{outcome_of};
ghost use Rattle.cache.specs.Policies.{PolicyLaws, row_after};

use crate::block_list::BlockList;
use crate::outcome::Outcome;

// What an access does to the list of a set, in a cache of so many ways, and what the cache is then sure to hold.
pub trait Policy {
    // the ways, the block, the list
    ghost step: { ℕ → ℕ → List ℕ → List ℕ };

    // the same of the cache's row: the sets, the ways, the block, the row
    ghost row_step: { ℕ → ℕ → ℕ → List (List ℕ) → List (List ℕ) };

    // lists of so many blocks are vouched for
    ghost life: { ℕ → ℕ };

    // the sets, the ways, the cache's own row, the row that it vouches for
    ghost vouches: { ℕ → ℕ → List (List ℕ) → List (List ℕ) → Type 0 };

    fn life(ways: u8) -> u8
        requires { ways ≤ 8 }
        ensures { result ≡ life ways };

    fn access(list: &mut BlockList, ways: u8, block: u32) -> Outcome
        requires { FitsWays list.old ways }
        ensures hit { result ≡ outcome_of (has block (blocks_of list.old)) }
        ensures moved { blocks_of list.new ≡ step ways block (blocks_of list.old) };

    ghost row_law: { (sets w b : ℕ) (row : List (List ℕ)) → row_step sets w b row ≡ row_after step sets w b row };

    ghost laws: { PolicyLaws step life vouches };
}
