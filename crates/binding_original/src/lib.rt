// The original, IronBus's snapshot, resolve_cache.rs and binding.rs, transcribed over values, and theorems: its answers
// are ours. Definitions and theorems only: no code.
#![tactic(auto)]
