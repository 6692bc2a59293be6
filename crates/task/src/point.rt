mod methods;

ghost use Rattle.std.specs.Prelude.{◌≡◌, ◌≤◌, true, length, take};
ghost use Rattle.task.specs.Contents.{point_with};
ghost use Rattle.task.specs.Legal.{legal_point};

// A point of a task: at most one access, and the points that may come next. These lie in an array with their number,
// since a point is copied, and no list of the library's is `Copy`.
#[derive(Clone, Copy)]
pub struct Point {
    access: Option<u32>,
    successors: [u8; 4],
    count: u8,
    ghost few: { count ≤ 4 },
    ghost room: { length successors ≡ 4 },
    ghost legal: { legal_point (point_with access (take count successors)) ≡ true },
}
