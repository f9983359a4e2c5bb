// What updates leave where they are cut: theorems alone.
#![tactic(auto)]
