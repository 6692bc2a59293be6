ghost use Rattle.std.specs.Prelude.{◌≡◌, ℕ, ◌≤◌, List};
ghost use Rattle.recency.specs.Misses.{possible_misses};
ghost use Rattle.recency.specs.Rows.{empty_row, row_run};
ghost use Rattle.cache.specs.Misses.{Misses};

use crate::Cache;
use crate::outcome::Outcome;

// Makes the accesses in order, on a cache in any state, and answers how many miss: at most as many as in an LRU cache
// of `life` ways that starts empty.
pub fn run_accesses<C: Cache>(cache: &mut C, blocks: &[u32]) -> usize
    ensures counted { Misses C.holds cache.old blocks.now result cache.new }
    ensures sets { C.sets cache.new ≡ C.sets cache.old }
    ensures life { C.life cache.new ≡ C.life cache.old }
    ensures moves { (row : List (List ℕ)) → C.vouches cache.old row → C.vouches cache.new (row_run (C.sets cache.old) (C.life cache.old) blocks.now row) }
    ensures vouched { C.vouches cache.new (row_run (C.sets cache.old) (C.life cache.old) blocks.now (empty_row (C.sets cache.old))) }
    ensures bounded { (row : List (List ℕ)) → C.vouches cache.old row → result ≤ possible_misses (C.sets cache.old) (C.life cache.old) blocks.now row }
    ensures bounded_from_empty { result ≤ possible_misses (C.sets cache.old) (C.life cache.old) blocks.now (empty_row (C.sets cache.old)) }
{
    // a loop, since of a closure that moves the cache on nothing would be known afterwards
    let mut misses = 0;
    for block in blocks {
        match cache.access(*block) {
            Outcome::Hit => {}
            Outcome::Miss => misses += 1,
        }
    }
    misses
}
