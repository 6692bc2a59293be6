// The lines that the program prints.
#![tactic(auto)]

ghost use Rattle.std.specs.Prelude.{◌≡◌, IfOk, string_bytes};
ghost use Rattle.task.specs.Tasks.{contents};
ghost use Rattle.report.specs.Texts.{refusal_text, summary_text};

use std::alloc::{AllocError, Global};
use task::parameters::CacheParameters;
use task::task::Task;
use taskfile::fault::TaskFault;

// The line for a file that is refused.
#[tactic(auto, using(crate::proofs::Lines::lined))]
pub fn refusal_line(heap: Global, fault: TaskFault) -> Result<String, AllocError>
    ensures { IfOk result (λ s. string_bytes s ≡ refusal_text fault) }
{
    format!(in heap; "{fault}\n")
}

// The line for a task: its cache, and how many points and blocks it has. One `format!`, since `Display` would fix one text
// for a task.
pub fn summary_line(heap: Global, task: &Task) -> Result<String, AllocError>
    ensures { IfOk result (λ s. string_bytes s ≡ summary_text (contents task.now)) }
{
    let CacheParameters { sets, ways, reload } = task.parameters();
    let points = task.points().len();
    let blocks = task.blocks().len();
    let evicting = task.evicting().len();
    format!(in heap;
        "sets {sets} ways {ways} reload {reload} points {points} blocks {blocks} evicting {evicting}\n"
    )
}
