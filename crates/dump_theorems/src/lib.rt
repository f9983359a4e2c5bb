// What is proved of the dump: theorems alone.
#![tactic(auto)]
