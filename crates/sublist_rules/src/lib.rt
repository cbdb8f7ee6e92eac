// What a build answers and leaves, and that the table it leaves holds its entries. Definitions and theorems only: no code.
#![tactic(auto)]
