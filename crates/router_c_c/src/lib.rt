// The exports for C: each call of `router_c` under its own name, with the same clauses.
// Kept: a call of a program's cannot lie in a static library, nor an export in a library, so each call stands in both.
// Texts, texts made for a bench, lists, tables, and what a cabinet keeps: the snapshot and the cache.
#![tactic(auto)]

mod cabinet;
mod lists;
mod load;
mod tables;
mod texts;
