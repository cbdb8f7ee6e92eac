// The resolve cache: lists found before, kept by subject for one generation of the table.
// A port of IronBus's ResolveCache.
// The slots lie in three lent lists: `stamps` has a number a slot, `keys` four lists of a byte a slot (the key's length
// less one; the number of targets; the mark, low byte and high byte) and then 256 bytes a slot, `kept` 16 targets.
#![tactic(auto)]

ghost use Rattle.std.specs.Prelude.{◌≡◌, ◌≢◌, ℕ, ◌+◌, ◌-◌, ◌*◌, ◌/◌, ◌<◌, ◌≤◌, true, false, length, min, slice_index};
ghost use Rattle.std.specs.Prelude.{MatchOption, IfSome};
ghost use Rattle.subject.specs.Answers.{optional};
ghost use Rattle.sublist_walk_rules.specs.Walk.{part};
ghost use Rattle.sublist_walk.specs.Answers.{match_refusal};
ghost use Rattle.resolve_cache_rules.specs.Mark.{hash_from, mark};
ghost use Rattle.resolve_cache_rules.specs.Area.{mark_at, keep_key, keep};
ghost use Rattle.resolve_cache_rules.specs.Cache.{short, bad_from, bad, keeps_at, find_from, oldest_from, place};
ghost use Rattle.resolve_cache_rules.specs.Cache.{adopt, ticked, hit, walked, grown};
ghost use Rattle.resolve_cache_rules.specs.Cache.{qualifies, handed, resolve};
ghost use Rattle.resolve_cache_rules.specs.Answers.{lent};
ghost use Rattle.resolve_cache_rules.specs.Ready.{Wide, Ready, Accepted, Small};
ghost use Rattle.resolve_cache.specs.declared.ResolveError.TheVariants.{Invalid};
ghost use Rattle.resolve_cache.specs.Answers.{resolve_refusal, resolve_answer, left, list_of};
ghost use Rattle.resolve_cache.specs.Deciding.{area_of, SameLists, Keeps, leaving};
ghost use Rattle.resolve_cache.specs.Deciding.{FirstOf, Roomy};

use resolve_cache_rules::{Answered, KEY_BYTES, ResolveCache, SLOT_LISTS, SLOT_TARGETS, Tick};
use subject::SubjectError;
use sublist_snapshot::{Generation, StandingTable};
use sublist_walk::MatchError;

// How many slots are looked at together for a mark.
const RUN: usize = 32;

// Where a resolve's list lies: a part of the cache's targets, or the first places of the output.
#[derive(Clone, Copy)]
pub enum ListPlace {
    Kept { from: usize, count: usize },
    Walked { count: usize },
}

// Why a resolve is refused.
#[derive(Clone, Copy)]
pub enum ResolveError {
    Invalid(SubjectError),
    CacheShort,
    BadSlot,
    Damaged,
    OutShort(usize),
}

// Kept: by hand, here and below, as in crossing: a clause names this error, so it needs `from_gives`.
impl From<SubjectError> for ResolveError {
    ghost from_gives = { λ e r. r ≡ Invalid e };

    fn from(e: SubjectError) -> ResolveError {
        ResolveError::Invalid(e)
    }
}

impl From<MatchError> for ResolveError {
    ghost from_gives = { λ e r. resolve_refusal r ≡ match_refusal e };

    fn from(e: MatchError) -> ResolveError {
        match e {
            MatchError::Invalid(e) => ResolveError::Invalid(e),
            MatchError::Damaged => ResolveError::Damaged,
            MatchError::OutShort(needed) => ResolveError::OutShort(needed),
        }
    }
}

// A cache's slots, as they are lent.
#[derive(Drop)]
struct Slots<'a> {
    stamps: &'a mut [u64],
    keys: &'a mut [u8],
    kept: &'a mut [u32],
}

// The keys of the slots in use, none of which is bad.
#[derive(Drop)]
struct Keys<'a> {
    bytes: &'a [u8],
    capacity: usize,
    used: usize,
    ghost inside: { used ≤ capacity },
    ghost room: { Roomy capacity bytes.now },
    ghost each: { (i : ℕ) → slice_index bytes.now i < 256 },
    ghost small: { Small capacity bytes.now used },
}

// The targets of a subject, from the cache or by a walk of the standing table, whose list is then kept.
// 1 to 9, 17, 18, 19 on the counts; then a hit (21) or a walk (19, 21).
// Only the stamps change on a hit; a refusal changes nothing.
// Kept: the C interface lends the slots' three lists apart, here and in binding; a `&mut Slots` in their place asks for
// `SameLists` in each contract besides: without it `look_up` does not tell `resolve` what the lists that it was lent
// hold afterwards.
pub fn resolve(
    cache: ResolveCache,
    stamps: &mut [u64],
    keys: &mut [u8],
    kept: &mut [u32],
    standing: &StandingTable<'_>,
    subject: &[u8],
    out: &mut [u32],
) -> Answered<Result<ListPlace, ResolveError>>
    ensures { left result (lent stamps.new keys.new kept.new) out.new
        ≡ resolve cache (lent stamps.old keys.old kept.old)
        standing.now.snapshot standing.now.area.now subject.now out.old }
{
    let mut slots = Slots { stamps, keys, kept };
    let mut next = cache;
    let answer = slots.look_up(&mut next, standing, subject, out);
    Answered {
        cache: next,
        answer,
    }
}

// The list that an answer hands back: a part of the cache's targets or of the output, as the resolve left them.
// A refusal hands back none.
pub fn list<'a>(
    answer: Result<ListPlace, ResolveError>,
    kept: &'a [u32],
    out: &'a [u32],
) -> &'a [u32]
    ensures { result.now ≡ list_of (handed (resolve_answer answer) kept.now out.now) }
{
    match answer {
        Ok(ListPlace::Kept { from, count }) => part(kept, from, count),
        Ok(ListPlace::Walked { count }) => part(out, 0, count),
        Err(_) => &out[..0],
    }
}

// So many words from a place on, as far as there are any.
fn part<'a>(words: &'a [u32], from: usize, count: usize) -> &'a [u32]
    ensures { result.now ≡ part words.now from count }
{
    let rest = &words[from.min(words.len())..];
    &rest[..count.min(rest.len())]
}

// The hash of a text's words.
fn word_hash(text: &[u8]) -> u64
    ensures { result ≡ hash_from text.now 0xcbf29ce484222325 0 ((length text.now + 7) / 8) }
{
    let last = text.len().saturating_sub(8);
    (0..text.len().div_ceil(8)).fold(0xcbf29ce484222325, |hash, i| {
        subject::mix_word(hash, subject::word_at(text, (8 * i).min(last)))
    })
}

// The mark of a key.
#[tactic(auto, using(crate::proofs::Hashes::mark_is))]
fn mark_of(key: &[u8]) -> u16
    ensures { result ≡ mark key.now }
{
    let spread = (word_hash(key) >> 32) * 0x1e3779b1;
    ((spread >> 16) & 0xffff) as u16
}

impl<'a> Keys<'a> {
    // The keys of so many slots, unless one of them is bad: it has a key over 256 bytes or over 16 targets, so that its
    // byte of the second list is over 16.
    // Kept: a fold with `|`, which compiles to steps of sixteen bytes; `any` leaves its loop early, looks at a byte a
    // step, and took ten times as long over 1,024 slots: a cache of 1,024, each in turn, is to be as fast as the
    // original's at least, and is 1.13 times.
    fn new(bytes: &'a [u8], capacity: usize, used: usize) -> Option<Keys<'a>>
        requires { (used ≤ capacity)
            × Roomy capacity bytes.now }
        ensures { MatchOption result (bad_from capacity bytes.now 0 used ≡ true)
            (λ k. (bad_from capacity bytes.now 0 used ≡ false)
            × (k.bytes.now ≡ bytes.now)
            × (k.capacity ≡ capacity)
            × (k.used ≡ used)) }
    {
        let bad = bytes[capacity..capacity + used]
            .iter()
            .fold(false, |bad, count| bad | (16 < *count));
        if bad {
            return None;
        }
        Some(Keys {
            bytes,
            capacity,
            used,
        })
    }

    // Whether one of the 32 slots from a place on may have a mark.
    // Kept: a fold with `|`, as in `new`, for the same bar: `any` took nine times as long here.
    fn any_marked(&self, from: usize, sought: u16) -> bool
        requires { from < self.now.used }
        ensures { result ≡ false → (k : ℕ) → k < 32
            → mark_at self.now.capacity self.now.bytes.now (from + k) ≢ sought }
    {
        let [low, high] = sought.to_le_bytes();
        let lows = 2 * self.capacity + from;
        let highs = 3 * self.capacity + from;
        self.bytes[lows..lows + RUN]
            .iter()
            .zip(&self.bytes[highs..highs + RUN])
            .fold(false, |any, (l, h)| any | ((*l == low) & (*h == high)))
    }

    // Whether a slot keeps the list of a subject that has this mark: the same mark and the same bytes.
    fn keeps(&self, i: usize, sought: u16, subject: &[u8]) -> bool
        requires inside { i < self.now.used }
        requires mark { sought ≡ mark subject.now }
        ensures { result ≡ keeps_at self.now.capacity self.now.bytes.now subject.now i }
    {
        let [low, high] = sought.to_le_bytes();
        if self.bytes[2 * self.capacity + i] != low || self.bytes[3 * self.capacity + i] != high {
            return false;
        }
        let start = SLOT_LISTS * self.capacity + KEY_BYTES * i;
        let end = start + self.bytes[i] as usize + 1;
        subject::same_bytes(&self.bytes[start..end], subject)
    }

    // The first slot of a run that keeps the list of a subject, among n. A run without the mark is passed over.
    #[tactic(auto, using(crate::proofs::Marks::absent_in_run))]
    fn find_in_run(&self, run: usize, n: usize, sought: u16, subject: &[u8]) -> Option<usize>
        requires inside { (32 * run < n)
            × (n ≤ self.now.used) }
        requires mark { sought ≡ mark subject.now }
        ensures { FirstOf self.now.capacity self.now.bytes.now subject.now
            (32 * run) (min n (32 * run + 32)) result }
    {
        let from = RUN * run;
        if !self.any_marked(from, sought) {
            return None;
        }
        (from..n.min(from + RUN)).find(|i| self.keeps(*i, sought, subject))
    }

    // The first of n slots that keeps the list of a subject, run by run.
    // Not inlined: as a part of `resolve`, whose values take the registers, the loop reads an address from the stack at
    // each run, and a hit on the last of 1,024 slots takes 193 ns where this takes 182.
    #[inline(never)]
    fn find(&self, n: usize, subject: &[u8]) -> Option<usize>
        requires { n ≤ self.now.used }
        ensures { (optional result ≡ find_from self.now.capacity self.now.bytes.now subject.now 0 n)
            × IfSome result (λ i. i < n) }
    {
        let sought = mark_of(subject);
        (0..n.div_ceil(RUN)).find_map(|run| self.find_in_run(run, n, sought, subject))
    }
}

// The slot of smallest stamp among the first n, the lowest on a tie.
// Kept: slot by slot; as `min_by_key`, a miss in a full cache of 1,024 took 1.3 times as long.
fn oldest(stamps: &[u64], n: usize) -> usize
    requires { (1 ≤ n)
        × (n ≤ length stamps.now) }
    ensures { (result ≡ oldest_from stamps.now 0 1 (n - 1))
        × (result < n) }
{
    let mut best = 0;
    for i in 1..n {
        if stamps[i] < stamps[best] {
            best = i;
        }
    }
    best
}

// The cache on a table's generation: emptied if it was on another.
fn adopt(cache: ResolveCache, generation: Generation) -> ResolveCache
    ensures { result ≡ adopt generation cache }
{
    if cache.generation == generation {
        return cache;
    }
    ResolveCache {
        used: 0, // its lists are another table's
        generation,
        tick: Tick(0),
        ..cache
    }
}

fn next_tick(cache: ResolveCache) -> Tick
    ensures { result ≡ ticked cache }
{
    Tick(cache.tick.0.wrapping_add(1))
}

// The cache after a hit, which is no walk.
fn hit(cache: ResolveCache) -> ResolveCache
    ensures { result ≡ hit cache }
{
    ResolveCache {
        tick: next_tick(cache),
        ..cache
    }
}

// The cache after a walk that keeps nothing.
fn walked(cache: ResolveCache) -> ResolveCache
    ensures { result ≡ walked cache }
{
    ResolveCache {
        walks: cache.walks.wrapping_add(1),
        ..hit(cache)
    }
}

// The cache after a walk whose list is kept.
fn grown(cache: ResolveCache) -> ResolveCache
    ensures { result ≡ grown cache }
{
    let used = if cache.used < cache.capacity {
        cache.used + 1
    } else {
        cache.used
    };
    ResolveCache {
        used,
        ..walked(cache)
    }
}

// A slot's key, with its length, the number of targets and its mark.
fn put_key(keys: &mut [u8], capacity: usize, i: usize, key: &[u8], count: usize)
    requires { (i < capacity)
        × Roomy capacity keys.old
        × (1 ≤ length key.now)
        × (length key.now ≤ 256)
        × (count ≤ 16) }
    ensures { keys.new ≡ keep_key capacity keys.old i key.now count }
{
    let [low, high] = mark_of(key).to_le_bytes();
    keys[i] = (key.len() - 1) as u8;
    keys[capacity + i] = count as u8;
    keys[2 * capacity + i] = low;
    keys[3 * capacity + i] = high;
    let start = SLOT_LISTS * capacity + KEY_BYTES * i;
    subject::copy_over(key, &mut keys[start..start + key.len()]);
}

// Whether a list is kept: the subject has no more than 256 bytes and the list no more than 16 targets.
fn qualifies(subject: &[u8], list: &[u32]) -> bool
    ensures { result ≡ qualifies subject.now list.now }
{
    subject.len() <= KEY_BYTES && list.len() <= SLOT_TARGETS
}

impl Slots<'_> {
    // 17: capacity over 1,024, or a list that is too short for so many slots.
    fn is_short(&self, capacity: usize) -> bool
        ensures { result ≡ short capacity (area_of self.now) }
    {
        resolve_cache_rules::is_short(capacity, self.stamps, self.keys, self.kept)
    }

    // The keys in use, or none: 18, capacity is 0, more slots are used than capacity, or a used slot is bad.
    fn keys_in_use(&self, cache: ResolveCache) -> Option<Keys<'_>>
        requires { Wide cache.capacity (area_of self.now) }
        ensures { MatchOption result (bad cache (area_of self.now) ≡ true)
            (λ k. (bad cache (area_of self.now) ≡ false)
            × (k.bytes.now ≡ self.now.keys.now)
            × (k.capacity ≡ cache.capacity)
            × (k.used ≡ cache.used)) }
    {
        if cache.capacity == 0 || cache.capacity < cache.used {
            return None;
        }
        Keys::new(self.keys, cache.capacity, cache.used)
    }

    // The slot that a new list goes to: the first unused one, or the one of smallest stamp.
    fn place(&self, cache: ResolveCache) -> usize
        requires { Ready cache (area_of self.now) }
        ensures { (result ≡ place cache (area_of self.now))
            × (result < cache.capacity) }
    {
        if cache.used < cache.capacity {
            return cache.used;
        }
        oldest(self.stamps, cache.used)
    }

    // The list of a walk is kept, if it qualifies: the cache then. It is on the standing table's generation.
    fn keep_list(&mut self, cache: ResolveCache, subject: &[u8], list: &[u32]) -> ResolveCache
        requires ready { Ready cache (area_of self.old) }
        requires not_empty { 1 ≤ length subject.now }
        ensures same { SameLists self.old self.new }
        ensures kept { Keeps cache (area_of self.old) subject.now list.now result (area_of self.new) }
    {
        if !qualifies(subject, list) {
            return walked(cache);
        }
        let i = self.place(cache);
        self.stamps[i] = next_tick(cache).0;
        let keys = &mut *self.keys;
        put_key(keys, cache.capacity, i, subject, list.len());
        let kept = &mut *self.kept;
        let start = SLOT_TARGETS * i;
        subject::copy_over(list, &mut kept[start..start + list.len()]);
        grown(cache)
    }

    // What a resolve comes to: 1 to 9, 17, 18, 19 on the counts, then a hit (21), or a walk (19, 21) whose list is
    // kept.
    #[tactic(auto, using(crate::proofs::Resolving::stages))]
    fn look_up(
        &mut self,
        cache: &mut ResolveCache,
        standing: &StandingTable<'_>,
        subject: &[u8],
        out: &mut [u32],
    ) -> Result<ListPlace, ResolveError>
        ensures same { SameLists self.old self.new }
        ensures leaves { leaving result cache.new (area_of self.new) out.new
            ≡ resolve cache.old (area_of self.old)
            standing.now.snapshot standing.now.area.now subject.now out.old }
    {
        subject::parse_literal(subject)?;
        if self.is_short(cache.capacity) {
            return Err(ResolveError::CacheShort);
        }
        let Some(in_use) = self.keys_in_use(*cache) else {
            return Err(ResolveError::BadSlot);
        };
        if !standing.stands() {
            return Err(ResolveError::Damaged);
        }
        let current = adopt(*cache, standing.snapshot.generation());
        let Some(slot) = in_use.find(current.used, subject) else {
            let found = standing.match_parsed(subject, out)?;
            *cache = self.keep_list(current, subject, &out[..found.count]);
            return Ok(ListPlace::Walked { count: found.count });
        };
        let count = self.keys[cache.capacity + slot] as usize;
        if out.len() < count {
            return Err(ResolveError::OutShort(count));
        }
        self.stamps[slot] = next_tick(current).0;
        *cache = hit(current);
        Ok(ListPlace::Kept {
            from: SLOT_TARGETS * slot,
            count,
        })
    }
}
