// The kind of row for the widest next uses of a task's blocks.
#![tactic(auto)]

pub mod next_uses;
