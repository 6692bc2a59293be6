// A task: the cache that it runs on, its points, and the blocks of what may interrupt it.
#![tactic(auto)]

pub mod draft;
pub mod faults;
pub mod parameters;
pub mod point;
pub mod task;
pub mod unfinished;
