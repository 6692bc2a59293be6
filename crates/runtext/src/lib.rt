// The text of a replayed run: the lines that it is read from, and the lines that it prints.
#![tactic(auto)]

pub mod answers;
pub mod calls;
pub mod hex;
