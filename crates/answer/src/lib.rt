// What the program answers for a file.
#![tactic(auto)]

pub mod sheet;

ghost use Rattle.std.specs.Prelude.{◌≡◌, IfOk, string_bytes};
ghost use Rattle.task.specs.Tasks.{contents};
ghost use Rattle.taskformat.specs.Reading.{accepted};
ghost use Rattle.sheettext.specs.Printed.{outcome_text};
ghost use Rattle.runs.specs.Runs.{ReferenceRuns};
ghost use Rattle.answer.specs.Answers.{Answers};

use crate::sheet::TaskSheet;
use report::refusal_line;
use sheettext::analysis_text;
use std::alloc::{AllocError, Global};
use task::task::Task;
use taskfile::fault::TaskFault;
use taskfile::read_task;

// The text for a file: the sheet of its task, or why it is refused. A refusal is an answer too, and no failure of the call.
#[derive(Drop)]
pub enum Reply {
    Accepted(String),
    Refused(String),
}

// Reads a task file, and analyses the task that it holds.
pub fn answer(heap: Global, file: &[u8]) -> Result<Reply, AllocError>
    ensures answer { IfOk result (Answers file.now) }
    ensures reference_runs { ReferenceRuns }
{
    reply_to(heap, file)
}

fn reply_to(heap: Global, file: &[u8]) -> Result<Reply, AllocError>
    ensures { IfOk result (Answers file.now) }
{
    match read_task(heap, file) {
        Ok(task) => Ok(Reply::Accepted(task_text(heap, &task)?)),
        Err(TaskFault::Memory) => Err(AllocError),
        Err(fault) => Ok(Reply::Refused(refusal_line(heap, fault)?)),
    }
}

// The text for an accepted task.
fn task_text(heap: Global, task: &Task) -> Result<String, AllocError>
    ensures { IfOk result (λ s. string_bytes s ≡ outcome_text (accepted (contents task.now))) }
{
    let n = task.points().len();
    let sheet = TaskSheet::of(task);
    analysis_text(
        heap,
        &sheet.records[0..n],
        sheet.largest,
        task.parameters().reload,
    )
}
