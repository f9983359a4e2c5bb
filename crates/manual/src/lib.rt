// Stage 2 translation as DDI 0487 has it, beside the Rust's walk: definitions and theorems alone.
#![tactic(auto)]
