// The kinds of row that the analysis settles.
#![tactic(auto)]

pub mod ages;
mod sets;

pub use sets::block_sets;
