ghost use Rattle.std.specs.Prelude.{◌≡◌};
ghost use Rattle.task.specs.Answers.{Finishes};
ghost use Rattle.task.specs.Drafts.{draft_contents};
ghost use Rattle.task.specs.Legal.{closed_point, first_open};
ghost use Rattle.task.specs.Meaning.{all_contents, point_contents};

use crate::draft::TaskDraft;
use crate::faults::UnfinishedCause;
use crate::point::Point;
use crate::task::Task;
use crate::unfinished::Unfinished;

impl TaskDraft {
    // The task, or the draft as it was, with the reason why it is no task yet.
    pub fn finish(self) -> Result<Task, Unfinished>
        ensures { Finishes (draft_contents self) result }
    {
        if self.points().is_empty() {
            return Err(Unfinished {
                draft: self,
                cause: UnfinishedCause::NoPoint,
            });
        }
        match lowest_open(self.points()) {
            None => Ok(Task { draft: self }),
            Some(k) => Err(Unfinished {
                draft: self,
                cause: UnfinishedCause::NoSuccessor(k),
            }),
        }
    }
}

// The lowest point with a successor past the last point.
fn lowest_open(points: &[Point]) -> Option<usize>
    ensures { result ≡ first_open (all_contents points.now) }
{
    points
        .iter()
        .position(|point| !is_closed(point, points.len()))
}

fn is_closed(point: &Point, count: usize) -> bool
    ensures { result ≡ closed_point count (point_contents point.now) }
{
    point.successors().iter().all(|s| (*s as usize) < count)
}
