// The structs that the C calls take and give, and how the router's values become numbers and numbers its states.
// Kept: refusals and kinds are numbers in these structs, and a value that is not there is 0, since C reads them.
#![tactic(auto)]

ghost use Rattle.std.specs.Prelude.{◌≡◌, [], slice_index};
ghost use Rattle.subject_rules.specs.Answers.{answer};
ghost use Rattle.subject.specs.Answers.{refusal, parsed, matched, placed};
ghost use Rattle.crossing.specs.Answers.{crossed};
ghost use Rattle.load_maker.specs.Answers.{text_answer};
ghost use Rattle.sublist_entries.specs.Answers.{insert_answer};
ghost use Rattle.sublist_rules.specs.Building.{held};
ghost use Rattle.sublist.specs.Answers.{build_refusal, build_answer};
ghost use Rattle.sublist_walk.specs.Answers.{match_refusal, match_answer};
ghost use Rattle.sublist_snapshot.specs.Answers.{made_answer, store_refusal, store_answer, snapshot_answer};
ghost use Rattle.resolve_cache_rules.specs.Answers.{cache_answer};
ghost use Rattle.resolve_cache.specs.Answers.{resolve_refusal, resolve_answer};
ghost use Rattle.binding.specs.Answers.{home_answer, cached_answer};
ghost use Rattle.whole_move_rules.specs.Move.{stopped, with_place};
ghost use Rattle.whole_move.specs.Answers.{move_says};
ghost use Rattle.router_words.specs.Words.{number_of, value_of, Says, SaysText, SaysMade, SaysMadeCache, SaysVerdict};
ghost use Rattle.router_words.specs.Words.{snapshot_of, snapshot_in, cache_of, answer_in, cache_in};
ghost use Rattle.router_words.specs.Words.{verdict_answer, judged_answer, moved_answer, SaysMove};

use binding::{Resolution, SingleHome};
use crossing::CrossingError;
use load_maker::{MadeText, MakeError};
use resolve_cache::{ListPlace, ResolveError};
use resolve_cache_rules::{Answered, CacheShort, ResolveCache, Tick};
use subject::{SubjectError, Token};
use sublist::{Built, SublistError};
use sublist_entries::{InsertError, ListState};
use sublist_snapshot::{Generation, Snapshot, SnapshotMatch, StoreError, Stored};
use sublist_walk::{MatchError, TableMatch};
use whole_move::{MoveError, WholeMove};

// An answer: 0 or the number of a refusal, then its values, 0 where there is none.
#[repr(C)]
#[derive(Clone, Copy, PartialEq, Eq, Debug)]
pub struct CAnswer {
    pub number: u64,
    pub first: u64,
    pub second: u64,
    pub third: u64,
}

// The making of a text: 0 and its length, or a refusal and its value; then the state.
#[repr(C)]
#[derive(Clone, Copy, PartialEq, Eq, Debug)]
pub struct CMadeText {
    pub number: u64,
    pub value: u64,
    pub state: u64,
}

// The state of a snapshot, lent by value; its words lie in a lent area.
#[repr(C)]
#[derive(Clone, Copy)]
pub struct CSnapshot {
    pub nodes: usize,
    pub targets: usize,
    pub generation: u64,
    pub next: u64,
}

// The state of a cache, lent and given back by value; its slots lie in lent areas.
#[repr(C)]
#[derive(Clone, Copy)]
pub struct CCache {
    pub capacity: usize,
    pub used: usize,
    pub generation: u64,
    pub tick: u64,
    pub walks: u64,
}

// Kept: C reads these structs flat, so this one, CStored, CMadeCache and CResolved repeat a state's fields. A `From` of
// each into that state proves, and is no plainer: 65 lines here and four edits, for 29 fewer in `replay`, its only use.
// The making of a snapshot: 0 with its state, or a refusal with zeros.
#[repr(C)]
#[derive(Clone, Copy)]
pub struct CMadeSnapshot {
    pub number: u64,
    pub nodes: u64,
    pub targets: u64,
    pub generation: u64,
    pub next: u64,
}

// A store: 0 with the generation stamped, or a refusal with 0; then the snapshot afterwards.
#[repr(C)]
#[derive(Clone, Copy)]
pub struct CStored {
    pub number: u64,
    pub stamped: u64,
    pub nodes: u64,
    pub targets: u64,
    pub generation: u64,
    pub next: u64,
}

// The making of a cache: 0 with its state, or a refusal with zeros.
#[repr(C)]
#[derive(Clone, Copy)]
pub struct CMadeCache {
    pub number: u64,
    pub capacity: u64,
    pub used: u64,
    pub generation: u64,
    pub tick: u64,
    pub walks: u64,
}

// An answer as that of CAnswer, then the cache afterwards.
#[repr(C)]
#[derive(Clone, Copy)]
pub struct CResolved {
    pub number: u64,
    pub first: u64,
    pub second: u64,
    pub third: u64,
    pub capacity: u64,
    pub used: u64,
    pub generation: u64,
    pub tick: u64,
    pub walks: u64,
}

// A verdict: 0, its kind (0 no target, 1 one, 2 several), the target or how many targets, the peak, the generation.
// Or a refusal with its values, then zeros.
#[repr(C)]
#[derive(Clone, Copy)]
pub struct CVerdict {
    pub number: u64,
    pub kind: u64,
    pub value: u64,
    pub peak: u64,
    pub generation: u64,
}

// A whole move that is routed: 0, 0 and the number of targets. One that stops: 0, 1, the place of the first subject
// that is not Routed, and the kind and value of its verdict. Or a refusal with its values, then zeros.
#[repr(C)]
#[derive(Clone, Copy)]
pub struct CMove {
    pub number: u64,
    pub first: u64,
    pub second: u64,
    pub third: u64,
    pub fourth: u64,
}

// The value at a place, 0 where there is none.
fn value_at(values: &[u64], place: usize) -> u64
    ensures { result ≡ slice_index values.now place }
{
    values.get(place).copied().unwrap_or(0)
}

impl CAnswer {
    // An answer by its number and its values.
    pub fn new(number: u64, values: &[u64]) -> CAnswer
        ensures { Says result (answer number values.now) }
    {
        CAnswer {
            number,
            first: value_at(values, 0),
            second: value_at(values, 1),
            third: value_at(values, 2),
        }
    }
}

// A refusal of a text.
impl From<SubjectError> for CAnswer {
    ghost from_gives = { λ e r. Says r (refusal e) };

    fn from(e: SubjectError) -> CAnswer {
        match e {
            SubjectError::TooLong => CAnswer::new(1, &[]),
            SubjectError::NotUtf8(index) => CAnswer::new(2, &[index as u64]),
            SubjectError::Empty => CAnswer::new(3, &[]),
            SubjectError::TailWildcardNotLast(index) => CAnswer::new(4, &[index as u64]),
            SubjectError::TooDeep(depth) => CAnswer::new(5, &[depth as u64]),
            SubjectError::EmptyToken(index) => CAnswer::new(6, &[index as u64]),
            SubjectError::WildcardNotAllowed(ch, index) => CAnswer::new(
                7,
                &[ch as u64, index as u64],
            ),
            SubjectError::ControlChar(ch, index) => CAnswer::new(8, &[ch as u64, index as u64]),
            SubjectError::IllegalChar(ch, index) => CAnswer::new(9, &[ch as u64, index as u64]),
        }
    }
}

// A parse: the token count, or the refusal.
impl From<Result<usize, SubjectError>> for CAnswer {
    ghost from_gives = { λ p r. Says r (parsed p) };

    fn from(p: Result<usize, SubjectError>) -> CAnswer {
        p.map_or_else(CAnswer::from, |count| CAnswer::new(0, &[count as u64]))
    }
}

// A match: 1 for yes, 0 for no, or the refusal of one of the texts.
impl From<Result<bool, SubjectError>> for CAnswer {
    ghost from_gives = { λ m r. Says r (matched m) };

    fn from(m: Result<bool, SubjectError>) -> CAnswer {
        m.map_or_else(CAnswer::from, |fits| CAnswer::new(0, &[u64::from(fits)]))
    }
}

// What two patterns have in common: 1 and a subject's length, or 0; or the refusal.
impl From<Result<Option<usize>, CrossingError>> for CAnswer {
    ghost from_gives = { λ c r. Says r (crossed c) };

    fn from(c: Result<Option<usize>, CrossingError>) -> CAnswer {
        match c {
            Ok(Some(size)) => CAnswer::new(0, &[1, size as u64]),
            Ok(None) => CAnswer::new(0, &[0]),
            Err(CrossingError::Invalid(e)) => e.into(),
            Err(CrossingError::OutShort(needed)) => CAnswer::new(21, &[needed as u64]),
        }
    }
}

// A text that was made: its length, or the refusal; then the state.
impl From<MadeText> for CMadeText {
    ghost from_gives = { λ m r. SaysText r (text_answer m.answer) m.state };

    fn from(m: MadeText) -> CMadeText {
        let state = m.state;
        match m.answer {
            Ok(size) => CMadeText {
                number: 0,
                value: size as u64,
                state,
            },
            Err(MakeError::ZeroStart) => CMadeText {
                number: 28,
                value: 0,
                state,
            },
            Err(MakeError::OutShort(needed)) => CMadeText {
                number: 21,
                value: needed as u64,
                state,
            },
        }
    }
}

// The place of a token: 1, its first position and the one behind its last; or 0.
impl From<Option<Token>> for CAnswer {
    ghost from_gives = { λ t r. Says r (placed t) };

    fn from(t: Option<Token>) -> CAnswer {
        match t {
            Some(token) => CAnswer::new(0, &[1, token.start as u64, token.end as u64]),
            None => CAnswer::new(0, &[0]),
        }
    }
}

// An insert: the entries and bytes in use, or the refusal.
impl From<Result<ListState, InsertError>> for CAnswer {
    ghost from_gives = { λ i r. Says r (insert_answer i) };

    fn from(i: Result<ListState, InsertError>) -> CAnswer {
        match i {
            Ok(list) => CAnswer::new(0, &[list.entries as u64, list.used as u64]),
            Err(InsertError::Invalid(e)) => e.into(),
            Err(InsertError::EntriesFull) => CAnswer::new(10, &[]),
            Err(InsertError::TextFull) => CAnswer::new(11, &[]),
        }
    }
}

// A held refusal 1 to 9: 13, its number, then its values.
fn held(e: SubjectError) -> CAnswer
    ensures { Says result (held (refusal e)) }
{
    let inner = CAnswer::from(e);
    CAnswer::new(13, &[inner.number, inner.first, inner.second])
}

// A refusal of a build.
impl From<SublistError> for CAnswer {
    ghost from_gives = { λ e r. Says r (build_refusal e) };

    fn from(e: SublistError) -> CAnswer {
        match e {
            SublistError::EntriesFull => CAnswer::new(10, &[]),
            SublistError::BadEntry(index) => CAnswer::new(12, &[index as u64]),
            SublistError::InvalidPattern(inner) => held(inner),
            SublistError::NodesFull(needed) => CAnswer::new(14, &[needed as u64]),
            SublistError::TargetsFull => CAnswer::new(15, &[]),
            SublistError::ForkLimitExceeded { worst_case, limit } => CAnswer::new(
                16,
                &[worst_case as u64, limit as u64],
            ),
        }
    }
}

// A build: node count, worst case and generation, or the refusal.
impl From<Result<Built, SublistError>> for CAnswer {
    ghost from_gives = { λ b r. Says r (build_answer b) };

    fn from(b: Result<Built, SublistError>) -> CAnswer {
        b.map_or_else(CAnswer::from, |table| {
            CAnswer::new(
                0,
                &[
                    table.nodes as u64,
                    table.worst_case as u64,
                    table.generation,
                ],
            )
        })
    }
}

// A refusal of a match.
impl From<MatchError> for CAnswer {
    ghost from_gives = { λ e r. Says r (match_refusal e) };

    fn from(e: MatchError) -> CAnswer {
        match e {
            MatchError::Invalid(inner) => inner.into(),
            MatchError::Damaged => CAnswer::new(19, &[]),
            MatchError::OutShort(needed) => CAnswer::new(21, &[needed as u64]),
        }
    }
}

// A match on a table: the list's length and the peak, or the refusal.
impl From<Result<TableMatch, MatchError>> for CAnswer {
    ghost from_gives = { λ m r. Says r (match_answer m) };

    fn from(m: Result<TableMatch, MatchError>) -> CAnswer {
        m.map_or_else(CAnswer::from, |found| {
            CAnswer::new(0, &[found.count as u64, found.peak as u64])
        })
    }
}

// A match through a snapshot: the list's length, the peak and the generation, or the refusal.
impl From<Result<SnapshotMatch, MatchError>> for CAnswer {
    ghost from_gives = { λ m r. Says r (snapshot_answer m) };

    fn from(m: Result<SnapshotMatch, MatchError>) -> CAnswer {
        m.map_or_else(CAnswer::from, |found| {
            CAnswer::new(
                0,
                &[found.count as u64, found.peak as u64, found.generation.0],
            )
        })
    }
}

impl From<CSnapshot> for Snapshot {
    ghost from_gives = { λ s r. r ≡ snapshot_of s };

    fn from(s: CSnapshot) -> Snapshot {
        Snapshot {
            nodes: s.nodes,
            targets: s.targets,
            generation: Generation(s.generation),
            next: Generation(s.next),
        }
    }
}

// The number of a refusal by the store.
fn store_number(e: StoreError) -> u64
    ensures { result ≡ number_of (store_refusal e) }
{
    match e {
        StoreError::Damaged => 19,
        StoreError::StoreFull => 20,
    }
}

// A fresh snapshot: its state, or the refusal.
impl From<Result<Snapshot, StoreError>> for CMadeSnapshot {
    ghost from_gives = { λ m r. SaysMade r (made_answer m) };

    fn from(m: Result<Snapshot, StoreError>) -> CMadeSnapshot {
        match m {
            Ok(s) => CMadeSnapshot {
                number: 0,
                nodes: s.nodes as u64,
                targets: s.targets as u64,
                generation: s.generation.0,
                next: s.next.0,
            },
            Err(e) => CMadeSnapshot {
                number: store_number(e),
                nodes: 0,
                targets: 0,
                generation: 0,
                next: 0,
            },
        }
    }
}

// A store: the generation stamped, or the refusal; then the snapshot.
impl From<Stored> for CStored {
    ghost from_gives = { λ s r. (r.number ≡ number_of (store_answer s.answer))
        × (r.stamped ≡ value_of (store_answer s.answer) 0)
        × (snapshot_in r ≡ s.snapshot) };

    fn from(s: Stored) -> CStored {
        let snapshot = s.snapshot;
        let (number, stamped) = match s.answer {
            Ok(generation) => (0, generation.0),
            Err(e) => (store_number(e), 0),
        };
        CStored {
            number,
            stamped,
            nodes: snapshot.nodes as u64,
            targets: snapshot.targets as u64,
            generation: snapshot.generation.0,
            next: snapshot.next.0,
        }
    }
}

impl From<CCache> for ResolveCache {
    ghost from_gives = { λ c r. r ≡ cache_of c };

    fn from(c: CCache) -> ResolveCache {
        ResolveCache {
            capacity: c.capacity,
            used: c.used,
            generation: Generation(c.generation),
            tick: Tick(c.tick),
            walks: c.walks,
        }
    }
}

impl From<ResolveCache> for CCache {
    ghost from_gives = { λ c r. cache_of r ≡ c };

    fn from(c: ResolveCache) -> CCache {
        CCache {
            capacity: c.capacity,
            used: c.used,
            generation: c.generation.0,
            tick: c.tick.0,
            walks: c.walks,
        }
    }
}

// A fresh cache: its state, or the refusal.
impl From<Result<ResolveCache, CacheShort>> for CMadeCache {
    ghost from_gives = { λ m r. SaysMadeCache r (cache_answer m) };

    fn from(m: Result<ResolveCache, CacheShort>) -> CMadeCache {
        match m {
            Ok(cache) => CMadeCache {
                number: 0,
                capacity: cache.capacity as u64,
                used: cache.used as u64,
                generation: cache.generation.0,
                tick: cache.tick.0,
                walks: cache.walks,
            },
            Err(CacheShort) => CMadeCache {
                number: 17,
                capacity: 0,
                used: 0,
                generation: 0,
                tick: 0,
                walks: 0,
            },
        }
    }
}

// A refusal of a resolve.
impl From<ResolveError> for CAnswer {
    ghost from_gives = { λ e r. Says r (resolve_refusal e) };

    fn from(e: ResolveError) -> CAnswer {
        match e {
            ResolveError::Invalid(inner) => inner.into(),
            ResolveError::CacheShort => CAnswer::new(17, &[]),
            ResolveError::BadSlot => CAnswer::new(18, &[]),
            ResolveError::Damaged => CAnswer::new(19, &[]),
            ResolveError::OutShort(needed) => CAnswer::new(21, &[needed as u64]),
        }
    }
}

// A resolve: where its list lies, or the refusal.
impl From<Result<ListPlace, ResolveError>> for CAnswer {
    ghost from_gives = { λ a r. Says r (resolve_answer a) };

    fn from(a: Result<ListPlace, ResolveError>) -> CAnswer {
        a.map_or_else(CAnswer::from, |place| match place {
            ListPlace::Kept { from, count } => CAnswer::new(0, &[0, from as u64, count as u64]),
            ListPlace::Walked { count } => CAnswer::new(0, &[1, 0, count as u64]),
        })
    }
}

impl CResolved {
    // An answer, and the cache afterwards.
    pub fn new(a: CAnswer, cache: ResolveCache) -> CResolved
        ensures { (answer_in result ≡ a) × (cache_in result ≡ cache) }
    {
        CResolved {
            number: a.number,
            first: a.first,
            second: a.second,
            third: a.third,
            capacity: cache.capacity as u64,
            used: cache.used as u64,
            generation: cache.generation.0,
            tick: cache.tick.0,
            walks: cache.walks,
        }
    }
}

// What a call on a cache answers, and the cache afterwards.
impl<A> From<Answered<A>> for CResolved
where
    CAnswer: From<A>,
{
    ghost from_gives = { λ r w. ⟦<CAnswer as From<A>>⟧.from_gives r.answer (answer_in w) × (cache_in w ≡ r.cache) };

    fn from(r: Answered<A>) -> CResolved {
        CResolved::new(r.answer.into(), r.cache)
    }
}

// A verdict: its kind, then the target or the number of targets.
impl From<Resolution> for CAnswer {
    ghost from_gives = { λ v r. Says r (verdict_answer v []) };

    fn from(v: Resolution) -> CAnswer {
        match v {
            Resolution::NoStream => CAnswer::new(0, &[]),
            Resolution::Routed(target) => CAnswer::new(0, &[1, target as u64]),
            Resolution::Ambiguous { matched } => CAnswer::new(0, &[2, matched as u64]),
        }
    }
}

// A verdict by a match, then the peak and the generation; or the refusal.
impl From<Result<SingleHome, MatchError>> for CVerdict {
    ghost from_gives = { λ h r. SaysVerdict r (judged_answer (home_answer h)) };

    fn from(h: Result<SingleHome, MatchError>) -> CVerdict {
        match h {
            Ok(home) => {
                let verdict = CAnswer::from(home.resolution);
                CVerdict {
                    number: 0,
                    kind: verdict.first,
                    value: verdict.second,
                    peak: home.peak as u64,
                    generation: home.generation.0,
                }
            }
            Err(e) => {
                let refusal = CAnswer::from(e);
                CVerdict {
                    number: refusal.number,
                    kind: refusal.first,
                    value: refusal.second,
                    peak: 0,
                    generation: 0,
                }
            }
        }
    }
}

// A verdict by a resolve, or the refusal.
impl From<Result<Resolution, ResolveError>> for CAnswer {
    ghost from_gives = { λ h r. Says r (judged_answer (cached_answer h)) };

    fn from(h: Result<Resolution, ResolveError>) -> CAnswer {
        h.map_or_else(CAnswer::from, CAnswer::from)
    }
}

impl CMove {
    // An answer of a whole move by its number and its values.
    fn new(number: u64, values: &[u64]) -> CMove
        ensures { SaysMove result (answer number values.now) }
    {
        CMove {
            number,
            first: value_at(values, 0),
            second: value_at(values, 1),
            third: value_at(values, 2),
            fourth: value_at(values, 3),
        }
    }
}

// A whole move that stops at a place, with the verdict there.
fn stop(place: u64, v: Resolution) -> CMove
    ensures { SaysMove result (moved_answer (stopped place v)) }
{
    let verdict = CAnswer::from(v);
    CMove::new(0, &[1, place, verdict.first, verdict.second])
}

// A refusal of the text of a subject, with the subject's place before its values.
fn refused_at(place: u64, e: SubjectError) -> CMove
    ensures { SaysMove result (with_place place (refusal e)) }
{
    let inner = CAnswer::from(e);
    CMove::new(
        inner.number,
        &[place, inner.first, inner.second, inner.third],
    )
}

// A whole move: how many are routed, where it stops, or the refusal.
impl From<Result<WholeMove, MoveError>> for CMove {
    ghost from_gives = { λ m r. SaysMove r (moved_answer (move_says m)) };

    fn from(m: Result<WholeMove, MoveError>) -> CMove {
        match m {
            Ok(WholeMove::Routed(count)) => CMove::new(0, &[0, count as u64]),
            Ok(WholeMove::Stopped { place, resolution }) => stop(place as u64, resolution),
            Err(MoveError::SetTooLarge) => CMove::new(22, &[]),
            Err(MoveError::BadEntry(place)) => CMove::new(12, &[place as u64]),
            Err(MoveError::Invalid { place, error }) => refused_at(place as u64, error),
            Err(MoveError::Damaged) => CMove::new(19, &[]),
            Err(MoveError::OutShort(needed)) => CMove::new(21, &[needed as u64]),
        }
    }
}
