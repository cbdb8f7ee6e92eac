// What becomes of a whole move: definitions and theorems only, no code.
#![tactic(auto)]
