// The meaning of a task file and its written form, as definitions, with the laws that tie them.
#![tactic(auto)]
