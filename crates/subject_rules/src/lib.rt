// What a text is, which texts are accepted, and when a pattern matches a subject. Definitions and theorems only: no code.
#![tactic(auto)]
