// What is proved of runs: theorems alone.
#![tactic(auto)]
