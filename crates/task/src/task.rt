mod finish;
mod methods;

ghost use Rattle.std.specs.Prelude.{◌≡◌, true};
ghost use Rattle.task.specs.Legal.{complete};
ghost use Rattle.task.specs.Drafts.{draft_contents};

use crate::draft::TaskDraft;

// A task: a draft with at least one point, that names only its own points.
#[derive(Drop)]
pub struct Task {
    draft: TaskDraft,
    ghost complete: { complete (draft_contents draft).points ≡ true },
}
