ghost use Rattle.std.specs.Prelude.{◌≡◌, Bool, if◌then◌else◌, Some, None};
ghost use Rattle.std.specs.Option.{option_map};
ghost use Rattle.recency.specs.Blocks.{has};
ghost use Rattle.task.specs.Contents.{point_with};
ghost use Rattle.task.specs.Legal.{legal_access, legal_point};
ghost use Rattle.task.specs.Lists.{rising};
ghost use Rattle.task.specs.Meaning.{point_contents};

use crate::point::Point;

impl Point {
    pub const MAX_SUCCESSORS: usize = 4;

    pub const MAX_BLOCK: u32 = 16_777_215;

    // A point, or `None` where the block is above `MAX_BLOCK`, or the successors are too many or do not rise.
    pub fn new(access: Option<u32>, successors: &[u8]) -> Option<Point>
        ensures { option_map point_contents result ≡ (if legal_point (point_with access successors.now) then Some (point_with access successors.now) else None) }
    {
        let n = successors.len();
        if n > Self::MAX_SUCCESSORS || !is_block(access) || !is_rising(successors) {
            return None;
        }
        let mut all = [0; Self::MAX_SUCCESSORS];
        all[0..n].copy_from_slice(successors);
        Some(Point {
            access,
            successors: all,
            count: n as u8,
        })
    }

    pub fn access(&self) -> Option<u32>
        ensures { result ≡ (point_contents self.now).access }
    {
        self.access
    }

    pub fn successors(&self) -> &[u8]
        ensures { result.now ≡ (point_contents self.now).successors }
    {
        &self.successors[0..self.count as usize]
    }

    // Whether point `to` may come next.
    pub fn leads_to(&self, to: usize) -> bool
        ensures { result ≡ has to (point_contents self.now).successors }
    {
        self.successors().iter().any(|s| *s as usize == to)
    }
}

fn is_block(access: Option<u32>) -> bool
    ensures { result ≡ legal_access access }
{
    access.is_none_or(|block| block <= Point::MAX_BLOCK)
}

// Each is below the next.
fn is_rising(numbers: &[u8]) -> bool
    ensures { result ≡ rising numbers.now }
{
    numbers.is_sorted_by(|one, next| one < next)
}
