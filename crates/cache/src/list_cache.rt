mod methods;

ghost use Rattle.std.specs.Prelude.{◌≡◌, ◌≤◌, true, length};
ghost use Rattle.recency.specs.Rows.{is_row};
ghost use Rattle.cache.specs.BlockLists.{row_of};

use crate::block_list::BlockList;
use crate::policy::Policy;
use std::marker::PhantomData;

// A cache that keeps a list of its blocks for each set, which the policy moves on. The first `sets` lists are in use;
// making a cache never lacks memory.
#[derive(Drop)]
pub struct ListCache<P: Policy> {
    sets: u8,
    ways: u8,
    lists: [BlockList; 64],
    policy: PhantomData<P>,
    ghost room: { length lists ≡ 64 },
    ghost some_sets: { 1 ≤ sets },
    ghost few_sets: { sets ≤ 64 },
    ghost some_ways: { 1 ≤ ways },
    ghost few_ways: { ways ≤ 8 },
    ghost row: { is_row sets ways (row_of sets lists) ≡ true },
}
