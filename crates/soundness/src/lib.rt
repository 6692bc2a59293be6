// Loads are at most plain loads plus charge, over what happens in a run. Definitions and laws.
#![tactic(auto)]
