// Task files: reads one into a task, and writes one into a buffer.
#![tactic(auto)]

pub mod fault;
mod read;
mod sizes;
pub(crate) mod step;
mod write;

pub use read::read_task;
pub use write::write_task;
