mod methods;

use arrayvec::ArrayVec;

// One set: the blocks of the filled ways, which are the first ones and stay filled, and the bits of the tree.
#[derive(Clone, Drop)]
pub struct PlruSet {
    blocks: ArrayVec<u32, 8>,
    bits: u8,
}
