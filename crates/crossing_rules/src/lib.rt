// Which subject two patterns both match, and that it is the shortest. Definitions and theorems only: no code.
#![tactic(auto)]
