// Rows made of cells, index for index, as definitions with their laws.
#![tactic(auto)]
