// One field after the header, added to the draft.
ghost use Rattle.std.specs.Prelude.{◌≡◌, Bool, true};
ghost use Rattle.std.specs.Option.{option_map};
ghost use Rattle.fields.specs.Layout.{evicting as evicting_field, point as point_field, sized};
ghost use Rattle.fields.specs.Said.{field_contents};
ghost use Rattle.task.specs.Drafts.{draft_contents};
ghost use Rattle.task.specs.Meaning.{point_contents};
ghost use Rattle.taskformat.specs.Reading.{point_of};
ghost use Rattle.taskfile.specs.Answers.{Stepped};

use crate::fault::TaskCause;
use fields::Field;
use task::draft::TaskDraft;
use task::point::Point;

// What a field did. Neither step has a value, so that an `Option` or a `ControlFlow` would only hide which is which.
#[derive(Clone, Copy, Debug, PartialEq, Eq)]
pub enum Progress {
    Taken,
    Ended,
}

// That a body is as long as its tag allows stands in clauses, not in a type: a point's body has no fixed length.
pub(crate) fn step(draft: &mut TaskDraft, field: Field<'_>) -> Result<Progress, TaskCause>
    requires { sized (field_contents field) ≡ true }
    ensures { Stepped (draft_contents draft.old) (field_contents field.entry) result (draft_contents draft.new) }
{
    match field {
        Field::Header(_) => Err(TaskCause::Order),
        Field::Point(body) => step_point(draft, body),
        Field::Evicting(body) => step_evicting(draft, body),
        Field::End => {
            if draft.points().is_empty() {
                return Err(TaskCause::Order);
            }
            Ok(Progress::Ended)
        }
    }
}

fn step_point(draft: &mut TaskDraft, body: &[u8]) -> Result<Progress, TaskCause>
    requires { sized (point_field body.now) ≡ true }
    ensures { Stepped (draft_contents draft.old) (point_field body.now) result (draft_contents draft.new) }
{
    if !draft.evicting().is_empty() {
        return Err(TaskCause::Order);
    }
    draft.add_point(point_from(body).ok_or(TaskCause::Value)?)?;
    Ok(Progress::Taken)
}

fn step_evicting(draft: &mut TaskDraft, body: &[u8]) -> Result<Progress, TaskCause>
    requires { sized (evicting_field body.now) ≡ true }
    ensures { Stepped (draft_contents draft.old) (evicting_field body.now) result (draft_contents draft.new) }
{
    if draft.points().is_empty() {
        return Err(TaskCause::Order);
    }
    draft.add_evicting(u32::from_be_bytes(body.try_into().unwrap()))?;
    Ok(Progress::Taken)
}

// The point in a body: a mark, after 1 a block, and the successors.
fn point_from(body: &[u8]) -> Option<Point>
    requires { sized (point_field body.now) ≡ true }
    ensures { option_map point_contents result ≡ point_of body.now }
{
    match body {
        [0, successors @ ..] => Point::new(None, successors),
        [1, a, b, c, d, successors @ ..] => Point::new(
            Some(u32::from_be_bytes([*a, *b, *c, *d])),
            successors,
        ),
        _ => None,
    }
}
