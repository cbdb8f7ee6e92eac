// The resolve cache's state, and what each call on it answers and leaves: definitions and theorems.
// A method stands in its type's crate, so the constructors and what reads the state are here; the resolve is code of
// `resolve_cache`.
#![tactic(auto)]

ghost use Rattle.std.specs.Prelude.{◌≡◌, eqb};
ghost use Rattle.resolve_cache_rules.specs.Cache.{short, with_capacity, new_cache, clear};
ghost use Rattle.resolve_cache_rules.specs.Answers.{cache_answer, lent};

use sublist_snapshot::Generation;

// What a slot takes: one number of `stamps`; of `keys` a byte in each of four lists and the bytes of its key; targets
// of `kept`.
pub const SLOT_LISTS: usize = 4;

pub const KEY_BYTES: usize = 256;

pub const SLOT_TARGETS: usize = 16;

// A cache's own count of its resolves, which stamps its slots. A tick is never a generation.
#[derive(Clone, Copy)]
pub struct Tick(pub u64);

// A cache's numbers; its slots lie in a lent area.
#[derive(Clone, Copy)]
pub struct ResolveCache {
    pub capacity: usize,
    pub used: usize,
    pub generation: Generation,
    pub tick: Tick,
    pub walks: u64,
}

// 17: the capacity is over 1,024, or the lent area is too short for it.
#[derive(Clone, Copy)]
pub struct CacheShort;

// What a call on a cache answers, and the cache afterwards.
#[derive(Clone, Copy)]
pub struct Answered<A> {
    pub cache: ResolveCache,
    pub answer: A,
}

impl ResolveCache {
    // The most slots that a cache may have, and how many `new` gives it.
    pub const DEFAULT_CAPACITY: usize = 1024;

    // A fresh cache of so many slots, one at the least, in the lent area.
    // Kept: stamps, keys and kept are three parameters here and below, since the C interface lends them apart.
    #[tactic(auto, unfolding(crate::specs::Cache::with_capacity))]
    pub fn with_capacity(
        capacity: usize,
        stamps: &[u64],
        keys: &[u8],
        kept: &[u32],
    ) -> Result<ResolveCache, CacheShort>
        ensures { cache_answer result
            ≡ with_capacity capacity (lent stamps.now keys.now kept.now) }
    {
        let slots = capacity.max(1);
        if is_short(slots, stamps, keys, kept) {
            return Err(CacheShort);
        }
        Ok(ResolveCache {
            capacity: slots,
            used: 0,
            generation: Generation(0),
            tick: Tick(0),
            walks: 0,
        })
    }

    // A fresh cache of 1,024 slots.
    pub fn new(stamps: &[u64], keys: &[u8], kept: &[u32]) -> Result<ResolveCache, CacheShort>
        ensures { cache_answer result
            ≡ new_cache (lent stamps.now keys.now kept.now) }
    {
        ResolveCache::with_capacity(ResolveCache::DEFAULT_CAPACITY, stamps, keys, kept)
    }

    // The most subjects that the cache keeps lists for.
    pub fn capacity(self) -> usize
        ensures { result ≡ self.capacity }
    {
        self.capacity
    }

    // How many subjects it keeps lists for.
    pub fn len(self) -> usize
        ensures { result ≡ self.used }
    {
        self.used
    }

    // Whether it keeps no list.
    pub fn is_empty(self) -> bool
        ensures { result ≡ eqb self.used 0 }
    {
        self.used == 0
    }

    // How many resolves walked the table.
    pub fn walk_count(self) -> u64
        ensures { result ≡ self.walks }
    {
        self.walks
    }

    // The generation of the table that its lists are from.
    pub fn generation(self) -> Generation
        ensures { result ≡ self.generation }
    {
        self.generation
    }

    // Emptied; generation and walks remain.
    #[tactic(auto, unfolding(crate::specs::Cache::clear))]
    pub fn clear(self) -> ResolveCache
        ensures { result ≡ clear self }
    {
        ResolveCache {
            used: 0,
            tick: Tick(0),
            ..self
        }
    }
}

// 17: capacity over 1,024, or a list that is too short for so many slots.
pub fn is_short(capacity: usize, stamps: &[u64], keys: &[u8], kept: &[u32]) -> bool
    ensures { result ≡ short capacity (lent stamps.now keys.now kept.now) }
{
    ResolveCache::DEFAULT_CAPACITY < capacity
        || stamps.len() < capacity
        || keys.len() < (SLOT_LISTS + KEY_BYTES) * capacity
        || kept.len() < SLOT_TARGETS * capacity
}
