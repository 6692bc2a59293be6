mod methods;

use arrayvec::ArrayVec;

// The blocks of one cache set, newest first.
#[derive(Clone, Drop)]
pub struct BlockList {
    blocks: ArrayVec<u32, 8>,
}
