// What the filling and the two checks say of a domain's frames: theorems alone, and document 01's examples.
#![tactic(auto)]
