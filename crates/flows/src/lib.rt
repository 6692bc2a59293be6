// A task and its settled tables in the words of points and blocks. Definitions and laws.
#![tactic(auto)]
