// Bit fields, look-up by code: definitions alone.
#![tactic(auto)]
