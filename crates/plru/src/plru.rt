mod methods;

ghost use Rattle.std.specs.Prelude.{◌≡◌, ◌≤◌, true, length};
ghost use Rattle.plru.specs.Meaning.{all_fit};

use crate::set::PlruSet;
use crate::tree::Tree;

// A tree PLRU cache. The first `sets` lines are in use; making a cache never lacks memory.
// Not a `ListCache` under a policy: its sets have bits beside their blocks, and what it vouches for speaks of the bits.
#[derive(Drop)]
pub struct Plru {
    sets: u8,
    tree: Tree,
    lines: [PlruSet; 64],
    ghost some: { 1 ≤ sets },
    ghost few: { sets ≤ 64 },
    ghost room: { length lines ≡ 64 },
    ghost fits: { all_fit tree.ways lines ≡ true },
}
