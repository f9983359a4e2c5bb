// What is proved of verification: theorems alone.
#![tactic(auto)]
