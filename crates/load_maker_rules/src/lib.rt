// What the load maker makes of a state, and that it is what is asked. Definitions and theorems only: no code.
#![tactic(auto)]
