// What is proved of encoded arenas: theorems alone.
#![tactic(auto)]
