// The C calls of the router, on numbers and slices. Every call takes any numbers and bytes and asks nothing more.
// `router_c_c` exports them to C.
// Kept: the C interface lends each area and each count by a parameter of its own.
// Texts, texts made for a bench, lists, tables, and what a cabinet keeps: the snapshot and the cache.
#![tactic(auto)]

mod cabinet;
mod lists;
mod load;
mod tables;
mod texts;

pub use cabinet::{
    router_cache_clear, router_cache_new, router_resolve, router_resolve_bytes,
    router_resolve_single_home, router_resolve_single_home_cached, router_single_home,
    router_snapshot_empty, router_snapshot_match, router_snapshot_new, router_store,
    router_whole_move,
};
pub use lists::{router_build, router_insert};
pub use load::{router_draw, router_make_pattern, router_make_subject};
pub use router_words::{
    CAnswer, CCache, CMadeCache, CMadeSnapshot, CMadeText, CMove, CResolved, CSnapshot, CStored,
    CVerdict,
};
pub use tables::{router_match, router_match_bytes};
pub use texts::{
    router_crossing, router_depth, router_has_tail_wildcard, router_matches, router_nth_token,
    router_parse, router_parse_literal, router_token_hash,
};
