// What is proved of the annex page: theorems alone.
#![tactic(auto)]
