// How many bytes fields have.
ghost use Rattle.std.specs.Prelude.{◌≡◌, ◌≤◌, length};
ghost use Rattle.fields.specs.Layout.{field_bytes};
ghost use Rattle.task.specs.Meaning.{all_contents, point_contents};
ghost use Rattle.taskformat.specs.Writing.{point_field, point_place};

use task::point::Point;

// Tag and length.
pub(crate) const HEAD_SIZE: usize = 3;

pub(crate) const HEADER_SIZE: usize = HEAD_SIZE + 6;

pub(crate) fn point_size(point: &Point) -> usize
    ensures { result ≡ length (field_bytes (point_field (point_contents point.now))) }
{
    let access = point.access().map_or(1, |_| 5);
    HEAD_SIZE + access + point.successors().len()
}

// Where the field of point k begins; with the number of points for k, where the fields after the points begin.
pub(crate) fn point_place(points: &[Point], k: usize) -> usize
    requires within { k ≤ length points.now }
    requires few { length points.now ≤ 128 }
    ensures { result ≡ point_place (all_contents points.now) k }
{
    HEADER_SIZE + points[..k].iter().map(point_size).sum::<usize>()
}
