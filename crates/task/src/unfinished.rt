use crate::draft::TaskDraft;
use crate::faults::UnfinishedCause;

// A draft that is no task yet, as it was.
#[derive(Drop)]
pub struct Unfinished {
    pub draft: TaskDraft,
    pub cause: UnfinishedCause,
}
