// What follows where nothing is refused: definitions and theorems alone.
#![tactic(auto)]
