mod methods;

ghost use Rattle.std.specs.Prelude.{◌≡◌, ◌≤◌, true, vec_capacity};
ghost use Rattle.task.specs.Blocks.{distinct_blocks};
ghost use Rattle.task.specs.Legal.{legal_draft};
ghost use Rattle.task.specs.Meaning.{all_contents, parts_contents};

use crate::parameters::CacheParameters;
use crate::point::Point;

// A task in the making. Its memory is reserved at the start, so that only `new` can fail for want of it.
#[derive(Drop)]
pub struct TaskDraft {
    cache: CacheParameters,
    points: Vec<Point>,
    blocks: Vec<u32>,
    evicting: Vec<u32>,
    ghost legal: { legal_draft (parts_contents cache points.items evicting.items) ≡ true },
    ghost named: { blocks.items ≡ distinct_blocks (all_contents points.items) },
    ghost points_room: { 128 ≤ vec_capacity points },
    ghost blocks_room: { 64 ≤ vec_capacity blocks },
    ghost evicting_room: { 64 ≤ vec_capacity evicting },
}
