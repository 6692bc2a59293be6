// The four settled tables of a task, and the numbers that they give each point.
#![tactic(auto)]

mod memory;
mod methods;
mod notes;
mod settle;

use conflicts::Conflicts;
use fixpoint::table::Table;
pub use memory::TableMemory;
use rowkinds::ages::Ages;
use widest::next_uses::NextUses;

// Tables of ages, reuse distances, conflict sets and widest next uses, over memory that is lent.
#[derive(Drop)]
pub struct Tables<'a> {
    pub ages: Table<'a, Ages>,
    pub reuses: Table<'a, Ages>,
    pub conflicts: Table<'a, Conflicts>,
    pub widest: Table<'a, NextUses>,
}

// How many rounds each table took.
#[derive(Clone, Copy)]
pub struct Rounds {
    pub ages: u64,
    pub reuses: u64,
    pub conflicts: u64,
    pub widest: u64,
}
