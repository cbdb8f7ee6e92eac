// The original, IronBus's sublist.rs, transcribed over values, and theorems: its list, table and walk are ours.
// Definitions and theorems only: no code.
#![tactic(auto)]
