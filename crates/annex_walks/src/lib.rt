// What the annex page says of walks over encoded tables: theorems alone.
#![tactic(auto)]
