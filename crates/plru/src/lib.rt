// Tree PLRU caches (pseudo-LRU) of 2, 4 or 8 ways.
#![tactic(auto)]

pub mod plru;
mod set;
#[cfg(test)]
mod tests;
mod tree;
