// The match and the resolve on areas of bytes: what they answer and leave. Definitions and theorems only: no code.
#![tactic(auto)]
