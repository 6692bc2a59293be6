ghost use Rattle.std.specs.Prelude.{◌≡◌, Bool, true, false, IfOk};
ghost use Rattle.fields.specs.Layout.{header as header_field, sized};
ghost use Rattle.task.specs.Drafts.{draft_contents};
ghost use Rattle.task.specs.Tasks.{contents};
ghost use Rattle.taskformat.specs.Inverse.{RewritingKeepsTheBytes};
ghost use Rattle.taskformat.specs.Reading.{closed, is_empty, meaning};
ghost use Rattle.taskformat.specs.Writing.{task_bytes};
ghost use Rattle.taskfile.specs.Answers.{Answered, Begun, HeaderIsLegal};

use crate::fault::{TaskCause, TaskFault};
use crate::sizes::{HEAD_SIZE, HEADER_SIZE, point_place};
use crate::step::{Progress, step};
use fields::{Field, take_field};
use std::alloc::Global;
use task::draft::TaskDraft;
use task::faults::UnfinishedCause;
use task::parameters::CacheParameters;
use task::task::Task;

// Reads a task file. Want of memory is told only where the header is legal.
pub fn read_task(heap: Global, file: &[u8]) -> Result<Task, TaskFault>
    ensures answer { Answered (HeaderIsLegal file.now) (meaning file.now) result }
    ensures law { RewritingKeepsTheBytes }
    ensures rewriting_keeps_the_bytes { IfOk result (λ t. task_bytes (contents t) ≡ file.now) }
{
    read_fields(heap, file)
}

fn read_fields(heap: Global, file: &[u8]) -> Result<Task, TaskFault>
    ensures { Answered (HeaderIsLegal file.now) (meaning file.now) result }
{
    let first = take_field(file, 0)?;
    let Field::Header(body) = first.field else {
        return Err(TaskFault::Task(TaskCause::Order, 0));
    };
    let mut draft = begin(heap, body)?;
    let mut rest = first.after;
    let mut place = HEADER_SIZE;
    // a loop and no iterator of fields: the place and the rest serve a step's refusal and the end as well
    'fields: loop {
        let taken = take_field(rest, place)?;
        let refused = |cause| TaskFault::Task(cause, place);
        let progress = step(&mut draft, taken.field).map_err(refused)?;
        if let Progress::Ended = progress {
            return close(draft, taken.after, place + HEAD_SIZE);
        }
        place += rest.len() - taken.after.len();
        rest = taken.after;
    }
}

// The draft that a header begins. A header stands at the begin of a file.
fn begin(heap: Global, body: &[u8]) -> Result<TaskDraft, TaskFault>
    requires { sized (header_field body.now) ≡ true }
    ensures { Begun body.now result }
{
    let [sets, ways, a, b, c, d]: [u8; 6] = body.try_into().unwrap();
    let reload = u32::from_be_bytes([a, b, c, d]);
    Ok(TaskDraft::new(heap, CacheParameters { sets, ways, reload })?)
}

// The task of a file whose end field was read; `place` follows it.
fn close(draft: TaskDraft, after: &[u8], place: usize) -> Result<Task, TaskFault>
    requires { is_empty (draft_contents draft).points ≡ false }
    ensures { Answered ⊥ (closed place after.now (draft_contents draft)) result }
{
    match draft.finish() {
        _ if !after.is_empty() => Err(TaskFault::Task(TaskCause::Trailing, place)),
        Ok(task) => Ok(task),
        Err(unfinished) => match unfinished.cause {
            // the draft has a point; a match has no shorter way to say that a case cannot be
            UnfinishedCause::NoPoint => unreachable(),
            UnfinishedCause::NoSuccessor(k) => {
                Err(TaskFault::Task(
                    TaskCause::Successor,
                    point_place(unfinished.draft.points(), k),
                ))
            }
        },
    }
}
