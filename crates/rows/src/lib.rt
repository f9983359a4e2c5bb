// Rows 1 to 14 of document 01's table: definitions, and its examples as a theorem.
#![tactic(auto)]
