// Caches behind one interface.
#![tactic(auto)]

mod block_list;
pub mod fault;
pub mod fifo;
mod list_cache;
pub mod lru;
pub mod outcome;
mod policy;
pub mod run;
pub mod size;
#[cfg(test)]
mod tests;

ghost use Rattle.std.specs.Prelude.{◌≡◌, ℕ, ◌≤◌, Bool, true, List};
ghost use Rattle.recency.specs.Blocks.{has};
ghost use Rattle.recency.specs.Rows.{empty_row, is_row, list_of, row_step};
ghost use Rattle.cache.specs.Outcomes.{outcome_of};

use outcome::Outcome;

// A cache, by what it holds and by the rows of lists that it vouches for: each block of such a row is held, and the row
// moves on with every access as LRU lists of `life` ways would. So a block that an LRU cache of `life` ways would hold
// is never missed, whatever the cache held before.
pub trait Cache {
    ghost sets: { Self → ℕ };

    ghost life: { Self → ℕ };

    ghost holds: { Self → ℕ → Bool };

    ghost vouches: { Self → List (List ℕ) → Type 0 };

    fn sets(&self) -> u8
        ensures { result ≡ sets self.now };

    fn life(&self) -> u8
        ensures { result ≡ life self.now };

    // Takes any block number.
    fn access(&mut self, block: u32) -> Outcome
        ensures hit { result ≡ outcome_of (holds self.old block) }
        ensures held { holds self.new block ≡ true }
        ensures sets { sets self.new ≡ sets self.old }
        ensures life { life self.new ≡ life self.old }
        ensures moves { (row : List (List ℕ)) → vouches self.old row → vouches self.new (row_step (sets self.old) (life self.old) block row) };

    ghost has_sets: { (c : Self) → (1 ≤ sets c) × (sets c ≤ 64) };

    ghost has_life: { (c : Self) → (1 ≤ life c) × (life c ≤ 8) };

    // whatever its state
    ghost vouches_for_empty_lists: { (c : Self) → vouches c (empty_row (sets c)) };

    ghost vouches_for_rows: { (c : Self) (row : List (List ℕ)) → vouches c row → is_row (sets c) (life c) row ≡ true };

    ghost holds_what_it_vouches_for: { (c : Self) (row : List (List ℕ)) (b : ℕ) → vouches c row → has b (list_of (sets c) b row) ≡ true → holds c b ≡ true };
}
