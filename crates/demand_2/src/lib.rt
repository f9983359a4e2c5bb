// What walks of encoded arenas reach: theorems alone.
#![tactic(auto)]
