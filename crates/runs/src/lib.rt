// Reference runs: tasks, files and accesses with the results that the definitions give for them.
#![tactic(auto)]
