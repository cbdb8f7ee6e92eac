// What a cabinet keeps, lent and given back as numbers: the snapshot of its table, and the cache of what it resolved.
ghost use Rattle.std.specs.Prelude.{◌≡◌, []};
ghost use Rattle.sublist_snapshot.specs.Snapshot.{make, make_empty, store_in, match_in};
ghost use Rattle.resolve_cache_rules.specs.Cache.{with_capacity, clear, resolve};
ghost use Rattle.resolve_cache_rules.specs.Answers.{lent};
ghost use Rattle.binding.specs.Verdict.{single_home, resolve_single_home, resolve_single_home_cached};
ghost use Rattle.router_words.specs.Words.{Says, Writes, table_of, snapshot_of, cache_of, SaysMadeCache};
ghost use Rattle.router_words.specs.Words.{verdict_answer};
ghost use Rattle.whole_move_rules.specs.Move.{spans_in, whole_move};
ghost use Rattle.router_words.specs.Words.{answer_in, cache_in, Makes, Stores, Resolves, Judges, JudgesCached, Moves};
ghost use Rattle.router_bytes_rules.specs.Bytes.{resolve_bytes};
ghost use Rattle.router_bytes.specs.Answers.{bytes_answer};

use resolve_cache::{ListPlace, ResolveError, resolve};
use resolve_cache_rules::{Answered, ResolveCache};
use router_bytes::BytesError;
use router_words::{
    CAnswer, CCache, CMadeCache, CMadeSnapshot, CMove, CResolved, CSnapshot, CStored, CVerdict,
};
use sublist_snapshot::{Generation, Snapshot, StandingTable, Sublist};

// A snapshot of a first table, whose words are copied to the area, stamped 0; the generation that build gave it is not
// used. Its state, or why not.
pub fn router_snapshot_new(
    nodes: usize,
    targets: usize,
    generation: u64,
    node_words: &[u32],
    target_words: &[u32],
    area: &mut [u32],
) -> CMadeSnapshot
    ensures { Makes result area.new
        (make (table_of nodes targets generation node_words.now target_words.now)
        area.old) }
{
    let table = Sublist {
        nodes,
        targets,
        generation: Generation(generation),
    };
    Snapshot::new(table, node_words, target_words, area).into()
}

// A snapshot of the table of no entries: its state, or why not.
pub fn router_snapshot_empty(area: &mut [u32]) -> CMadeSnapshot
    ensures { Makes result area.new (make_empty area.old) }
{
    Snapshot::empty(area).into()
}

// A table takes the place of the standing one, stamped with the counter; the generation that build gave it is not used.
pub fn router_store(
    snapshot: CSnapshot,
    nodes: usize,
    targets: usize,
    generation: u64,
    node_words: &[u32],
    target_words: &[u32],
    area: &mut [u32],
) -> CStored
    ensures { Stores result area.new
        (store_in (snapshot_of snapshot) area.old
        (table_of nodes targets generation node_words.now target_words.now)) }
{
    let standing = Snapshot::from(snapshot);
    let table = Sublist {
        nodes,
        targets,
        generation: Generation(generation),
    };
    standing.store(table, node_words, target_words, area).into()
}

// The standing table, which C lends as a snapshot and an area.
fn standing_table(snapshot: CSnapshot, area: &[u32]) -> StandingTable<'_>
    ensures { (result.snapshot ≡ snapshot_of snapshot)
        × (result.area.now ≡ area.now) }
{
    StandingTable {
        snapshot: snapshot.into(),
        area,
    }
}

// The targets that a subject matches in the standing table, written over the first places of the output.
// The answer has their number, the peak and the generation, or why not.
pub fn router_snapshot_match(
    snapshot: CSnapshot,
    area: &[u32],
    subject: &[u8],
    out: &mut [u32],
) -> CAnswer
    ensures { Writes result out.new
        (match_in (snapshot_of snapshot) area.now subject.now out.old) }
{
    standing_table(snapshot, area)
        .match_into(subject, out)
        .into()
}

// A fresh cache of so many slots in the lent areas, a stamp, 260 bytes and 16 targets a slot, or why not.
pub fn router_cache_new(capacity: usize, stamps: &[u64], keys: &[u8], kept: &[u32]) -> CMadeCache
    ensures { SaysMadeCache result (with_capacity capacity (lent stamps.now keys.now kept.now)) }
{
    ResolveCache::with_capacity(capacity, stamps, keys, kept).into()
}

// The cache emptied; generation and walks remain.
pub fn router_cache_clear(cache: CCache) -> CCache
    ensures { cache_of result ≡ clear (cache_of cache) }
{
    let own = ResolveCache::from(cache);
    own.clear().into()
}

// The targets of a subject, from the cache or by a walk of the standing table.
// The answer: where the list lies (0 in `kept`, 1 in `out`), its first place and length, or why not; then the cache.
pub fn router_resolve(
    cache: CCache,
    stamps: &mut [u64],
    keys: &mut [u8],
    kept: &mut [u32],
    snapshot: CSnapshot,
    area: &[u32],
    subject: &[u8],
    out: &mut [u32],
) -> CResolved
    ensures { Resolves result (lent stamps.new keys.new kept.new) out.new
        (resolve (cache_of cache) (lent stamps.old keys.old kept.old)
        (snapshot_of snapshot) area.now subject.now out.old) }
{
    let own = ResolveCache::from(cache);
    let standing = standing_table(snapshot, area);
    resolve(own, stamps, keys, kept, &standing, subject, out).into()
}

// A resolve on bytes: what the resolve on the copies tells, or 99; then the cache.
// Kept: one function for this and tables' `told` would say its answer by any `from`, in a definition of its own, and
// need a lemma for each of the two contracts: more words than these arms.
fn told(r: Answered<Result<ListPlace, BytesError<ResolveError>>>) -> CResolved
    ensures { Says (answer_in result) (bytes_answer r.answer)
        × (cache_in result ≡ r.cache) }
{
    let answer = match r.answer {
        Ok(place) => CAnswer::from(Ok(place)),
        Err(BytesError::CopyFull) => CAnswer::new(99, &[]),
        Err(BytesError::Refused(e)) => e.into(),
    };
    CResolved::new(answer, r.cache)
}

// The resolve on areas of bytes, lowest byte of a number first; whole numbers count.
// Eight bytes are a number of `stamps`, four a word of the others.
// 99 if stamps, kept, area and out are together more than 65,536 bytes.
pub fn router_resolve_bytes(
    cache: CCache,
    stamps: &mut [u8],
    keys: &mut [u8],
    kept: &mut [u8],
    snapshot: CSnapshot,
    area: &[u8],
    subject: &[u8],
    out: &mut [u8],
) -> CResolved
    ensures { Resolves result (lent stamps.new keys.new kept.new) out.new
        (resolve_bytes (cache_of cache) (lent stamps.old keys.old kept.old)
        (snapshot_of snapshot) area.now subject.now out.old) }
{
    let own = ResolveCache::from(cache);
    let standing = Snapshot::from(snapshot);
    let resolved = router_bytes::resolve_bytes(
        own, stamps, keys, kept, standing, area, subject, out,
    );
    told(resolved)
}

// The verdict on a list.
pub fn router_single_home(list: &[u32]) -> CAnswer
    ensures { Says result (verdict_answer (single_home list.now) []) }
{
    binding::single_home(list).into()
}

// The verdict on the list that a match through the snapshot writes over the first places of the output, or why not.
pub fn router_resolve_single_home(
    snapshot: CSnapshot,
    area: &[u32],
    subject: &[u8],
    out: &mut [u32],
) -> CVerdict
    ensures { Judges result out.new
        (resolve_single_home (snapshot_of snapshot) area.now subject.now out.old) }
{
    let standing = standing_table(snapshot, area);
    binding::resolve_single_home(&standing, subject, out).into()
}

// The verdict on the list that a resolve hands back, or why not; then the cache afterwards.
pub fn router_resolve_single_home_cached(
    cache: CCache,
    stamps: &mut [u64],
    keys: &mut [u8],
    kept: &mut [u32],
    snapshot: CSnapshot,
    area: &[u32],
    subject: &[u8],
    out: &mut [u32],
) -> CResolved
    ensures { JudgesCached result (lent stamps.new keys.new kept.new) out.new
        (resolve_single_home_cached (cache_of cache) (lent stamps.old keys.old kept.old)
        (snapshot_of snapshot) area.now subject.now out.old) }
{
    let own = ResolveCache::from(cache);
    let standing = standing_table(snapshot, area);
    binding::resolve_single_home_cached(own, stamps, keys, kept, &standing, subject, out).into()
}

// Up to 64 subjects routed together by the standing table; two numbers a subject say where it lies in the bytes, start
// and length. The answer: 0, 0 and how many targets are written over the first places of the output, one a subject in
// their order; or 0, 1, the place of the first subject that is not Routed, and its verdict; or why not.
pub fn router_whole_move(
    snapshot: CSnapshot,
    area: &[u32],
    bytes: &[u8],
    spans: &[usize],
    out: &mut [u32],
) -> CMove
    ensures { Moves result out.new
        (whole_move (snapshot_of snapshot) area.now bytes.now (spans_in spans.now)
        out.old) }
{
    let standing = standing_table(snapshot, area);
    whole_move::whole_move(&standing, bytes, spans, out).into()
}
