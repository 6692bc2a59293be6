// Lists of blocks ordered by recency of access, as definitions with their laws.
#![tactic(auto)]
