// Replays the recording on standard input: 6,565 calls, each with what the original answered. The call is made here,
// through the C calls of the router, and each value that differs is said and counted.
//
// The recording (the file stdin) holds the grammar on short texts and on those at its limits; patterns against
// subjects; lists inserted, built and matched, among them the 1,024 runs of ten tokens and the list that is refused;
// then stores, matches, resolves on two small caches, clears and verdicts in turn, with what each cache holds after
// each call. It has no text that the original cannot be asked for (refusals 1 and 2), and none that the router would
// not keep in a cache. It was made by the original alone, with the seed 1, and is made again, byte for byte, by
//
//     cd host && cargo run --release --bin record ../crates/replay/stdin
//
// The folder host/compare/src/bin/record has the form: recording.rs that of every record, calls.rs the kinds.
#![tactic(auto)]

ghost use Rattle.std.specs.Prelude.{◌≤◌};

use router_c::{
    CAnswer, CCache, CMadeSnapshot, CResolved, CSnapshot, CStored, router_build,
    router_cache_clear, router_cache_new, router_insert, router_match, router_matches,
    router_parse, router_parse_literal, router_resolve, router_resolve_single_home,
    router_resolve_single_home_cached, router_single_home, router_snapshot_empty,
    router_snapshot_match, router_snapshot_new, router_store,
};
use std::io::Read;
use std::{fmt, io, iter};

// ---- The kinds of records.

#[derive(Clone, Copy, PartialEq, Eq)]
enum Kind {
    ParseLiteral = 1,
    Parse,
    Matches,
    SingleHome,
    NewList,
    Insert,
    Build,
    MatchTable,
    NewSnapshot,
    EmptySnapshot,
    Store,
    MatchSnapshot,
    Verdict,
    NewCache,
    Clear,
    Resolve,
    CachedVerdict,
}

// In the order of their numbers, which begin at 1.
const KINDS: [Kind; 17] = [
    Kind::ParseLiteral,
    Kind::Parse,
    Kind::Matches,
    Kind::SingleHome,
    Kind::NewList,
    Kind::Insert,
    Kind::Build,
    Kind::MatchTable,
    Kind::NewSnapshot,
    Kind::EmptySnapshot,
    Kind::Store,
    Kind::MatchSnapshot,
    Kind::Verdict,
    Kind::NewCache,
    Kind::Clear,
    Kind::Resolve,
    Kind::CachedVerdict,
];

// A record's first byte is the number of no kind.
#[derive(Clone, Copy)]
struct NoKind(u8);

impl TryFrom<u8> for Kind {
    type Error = NoKind;

    fn try_from(number: u8) -> Result<Kind, NoKind> {
        let kind = KINDS.iter().copied().find(|kind| *kind as u8 == number);
        kind.ok_or(NoKind(number))
    }
}

impl fmt::Display for Kind {
    fn fmt<W: fmt::Write>(&self, f: &mut fmt::Formatter<W>) -> fmt::Result {
        f.write_str(match self {
            Kind::ParseLiteral => "parse_literal",
            Kind::Parse => "parse",
            Kind::Matches => "matches",
            Kind::SingleHome => "single_home",
            Kind::NewList => "new list",
            Kind::Insert => "insert",
            Kind::Build => "build",
            Kind::MatchTable => "match in the table",
            Kind::NewSnapshot => "new snapshot",
            Kind::EmptySnapshot => "empty snapshot",
            Kind::Store => "store",
            Kind::MatchSnapshot => "match in the snapshot",
            Kind::Verdict => "resolve_single_home",
            Kind::NewCache => "new cache",
            Kind::Clear => "clear",
            Kind::Resolve => "resolve",
            Kind::CachedVerdict => "resolve_single_home_cached",
        })
    }
}

// ---- What a record holds, and the recording.

// A number of a record, and its place: the bytes in front of it.
#[derive(Clone, Copy)]
struct Field<T> {
    at: usize,
    value: T,
}

// Bytes, and the place of the field that is read next; numbers have their lowest byte first. Every read is total: what
// lies outside is zeros, and a text that is not all there is empty.
#[derive(Clone, Copy)]
struct Fields<'a> {
    bytes: &'a [u8],
    at: usize,
}

impl<'a> Fields<'a> {
    fn new(bytes: &'a [u8]) -> Fields<'a> {
        Fields { bytes, at: 0 }
    }

    // The bytes from the place on.
    fn rest(&self) -> &'a [u8] {
        self.bytes.get(self.at..).unwrap_or_default()
    }

    fn skip(&mut self, count: usize) {
        self.at = self.at.wrapping_add(count);
    }

    fn chunk<const N: usize>(&mut self) -> [u8; N] {
        let mut chunk = [0; N];
        for (to, from) in chunk.iter_mut().zip(self.rest()) {
            *to = *from;
        }
        self.skip(N);
        chunk
    }

    // Kept: tried as one function for every width: the check does not cover a closure that takes an array of N bytes.
    fn byte(&mut self) -> Field<u8> {
        let at = self.at;
        let value = u8::from_le_bytes(self.chunk());
        Field { at, value }
    }

    fn short(&mut self) -> Field<u16> {
        let at = self.at;
        let value = u16::from_le_bytes(self.chunk());
        Field { at, value }
    }

    fn word(&mut self) -> Field<u32> {
        let at = self.at;
        let value = u32::from_le_bytes(self.chunk());
        Field { at, value }
    }

    fn number(&mut self) -> Field<u64> {
        let at = self.at;
        let value = u64::from_le_bytes(self.chunk());
        Field { at, value }
    }

    // A text, or a record, behind its length in two bytes.
    fn text(&mut self) -> &'a [u8] {
        let length = usize::from(self.short().value);
        let text = self.rest().get(..length).unwrap_or_default();
        self.skip(length);
        text
    }

    // Words behind their count in two bytes.
    fn list(&mut self) -> Words<'a> {
        let count = self.short();
        let fields = *self;
        self.skip(usize::from(count.value) * 4);
        Words { count, fields }
    }

    // Which cache; then, as the call leaves it, the subjects kept, the walks and the generation.
    fn cache(&mut self) -> Left {
        let which = usize::from(self.byte().value.min(1));
        let subjects = self.word();
        let walks = self.number();
        let generation = self.number();
        Left {
            which,
            subjects,
            walks,
            generation,
        }
    }

    // An answer: a number and two values.
    fn answer(&mut self) -> Recorded {
        let number = self.byte();
        let first = self.word();
        let second = self.word();
        Recorded {
            number,
            first,
            second,
        }
    }
}

// A list in a record: how many words it is said to have, and where they begin.
#[derive(Clone, Copy)]
struct Words<'a> {
    count: Field<u16>,
    fields: Fields<'a>,
}

// The answer that the original gave to a call.
#[derive(Clone, Copy)]
struct Recorded {
    number: Field<u8>,
    first: Field<u32>,
    second: Field<u32>,
}

// Which cache a record is of, and what it holds when the call is done: subjects kept, walks and generation.
#[derive(Clone, Copy)]
struct Left {
    which: usize,
    subjects: Field<u32>,
    walks: Field<u64>,
    generation: Field<u64>,
    ghost one_of_two: { which ≤ 1 },
}

// Kept: a program says what it always said: this number, which no record has, for a record of no kind. No call is made.
const NO_ANSWER: u64 = 256;

// ---- What is counted: all records, those of each kind at its number, and the differences; and what is said of a
// difference.

#[derive(Drop)]
struct Tally<'a, R> {
    rt: &'a R,
    records: u64,
    of_kind: [u64; 18],
    differences: u64,
}

impl<'a, R: Print> Tally<'a, R> {
    fn new(rt: &'a R) -> Tally<'a, R> {
        Tally {
            rt,
            records: 0,
            of_kind: [0; 18],
            differences: 0,
        }
    }

    fn count(&mut self, kind: Kind) {
        let count = &mut self.of_kind[kind as usize];
        *count = count.wrapping_add(1);
    }

    // Kept: it counts as it always did: 18 as a record more and 19 as a difference, as when all counts stood in one
    // array by these numbers.
    fn count_no_kind(&mut self, NoKind(number): NoKind) {
        match number {
            18 => self.records = self.records.wrapping_add(1),
            19 => self.differences = self.differences.wrapping_add(1),
            _ => {}
        }
    }

    // Counts and says a difference at a place of the record, unless what came out is what is recorded.
    fn hold<T>(&mut self, came: u64, field: Field<T>) -> io::Result<()>
    where
        u64: From<T>,
    {
        let at = field.at;
        let recorded = u64::from(field.value);
        if came == recorded {
            return Ok(());
        }
        self.differences = self.differences.wrapping_add(1);
        println!(self.rt;
            "record {}, at {at}: {came}, recorded {recorded}",
            self.records
        )
    }

    fn report(&self) -> io::Result<()> {
        let rt = self.rt;
        for kind in KINDS {
            let count = self.of_kind[kind as usize];
            println!(rt; "{kind} {count}")?;
        }
        println!(rt; "records {}", self.records)?;
        println!(rt; "differences {}", self.differences)
    }
}

// A record whose call is made: the answer recorded, what is left of it (what the call takes, and what else it gave),
// and where what comes out is counted.
#[derive(Drop)]
struct Record<'r, 'a, R> {
    answer: Recorded,
    fields: Fields<'r>,
    tally: &'r mut Tally<'a, R>,
}

impl<R: Print> Record<'_, '_, R> {
    fn hold_answer(&mut self, came: CAnswer) -> io::Result<()> {
        self.tally.hold(came.number, self.answer.number)?;
        self.tally.hold(came.first, self.answer.first)?;
        self.tally.hold(came.second, self.answer.second)
    }

    // Holds an answer, and its third value to the generation that stands next.
    fn hold_stamped(&mut self, came: CAnswer) -> io::Result<()> {
        self.hold_answer(came)?;
        self.tally.hold(came.third, self.fields.number())
    }

    // Holds the length of a list, and what the output starts with to as many words as are recorded.
    fn hold_list(&mut self, length: u64, recorded: Words<'_>, out: &Targets) -> io::Result<()> {
        let mut words = recorded.fields;
        self.tally.hold(length, recorded.count)?;
        let came = out.iter().copied().chain(iter::repeat(0));
        for target in came.take(usize::from(recorded.count.value)) {
            self.tally.hold(u64::from(target), words.word())?;
        }
        Ok(())
    }

    // Holds a cache to what the record says of it.
    fn hold_cache(&mut self, cache: &CCache, left: Left) -> io::Result<()> {
        self.tally.hold(cache.used as u64, left.subjects)?;
        self.tally.hold(cache.walks, left.walks)?;
        self.tally.hold(cache.generation, left.generation)
    }
}

// ---- What the calls leave for later ones, and the areas that they are lent: room for 1,026 entries, for the 2,049
// nodes of their table, and for eight slots of each cache. Each call's comment says what the record has for it.

const ENTRIES: usize = 1026;

const ENTRY_NUMBERS: usize = ENTRIES * 3;

const STORE_BYTES: usize = 19498;

const NODE_WORDS: usize = 2049 * 16;

const AREA_WORDS: usize = NODE_WORDS + ENTRIES;

const SLOTS: usize = 8;

const KEY_BYTES: usize = SLOTS * 260;

// The most targets that a slot keeps.
const MOST_KEPT: usize = 16;

const KEPT_WORDS: usize = SLOTS * MOST_KEPT;

// The targets of a table, and the output of a match.
type Targets = [u32; ENTRIES];

// The list, and the table that was built last.
// Kept: the program `vectors` has such a list too; programs share only libraries, and one more for it is no plainer.
#[derive(Drop)]
struct List {
    entries: usize,
    used: usize,
    words: [usize; ENTRY_NUMBERS],
    store: [u8; STORE_BYTES],
    node_count: usize,
    target_count: usize,
    generation: u64,
    nodes: [u32; NODE_WORDS],
    targets: Targets,
}

// The snapshot.
#[derive(Drop)]
struct Standing {
    snapshot: CSnapshot,
    area: [u32; AREA_WORDS],
}

#[derive(Drop)]
struct Cache {
    state: CCache,
    stamps: [u64; SLOTS],
    keys: [u8; KEY_BYTES],
    kept: [u32; KEPT_WORDS],
}

// An answer without its second value: the original reports no peak and no worst case.
fn without_second(a: CAnswer) -> CAnswer {
    if a.number != 0 {
        return a;
    }
    CAnswer::new(0, &[a.first, 0, a.third])
}

// The length of the list that an answer tells.
fn length_of(a: CAnswer) -> u64 {
    if a.number == 0 { a.first } else { 0 }
}

impl List {
    fn new() -> List {
        List {
            entries: 0,
            used: 0,
            words: [0; ENTRY_NUMBERS],
            store: [0; STORE_BYTES],
            node_count: 0,
            target_count: 0,
            generation: 0,
            nodes: [0; NODE_WORDS],
            targets: [0; ENTRIES],
        }
    }

    // Nothing.
    fn begin(&mut self) -> CAnswer {
        self.entries = 0;
        self.used = 0;
        CAnswer::new(0, &[])
    }

    // The target, then the pattern. The original says of an insert only that it is done.
    fn insert(&mut self, mut fields: Fields<'_>) -> CAnswer {
        let target = fields.word().value;
        let given = router_insert(
            self.entries,
            self.used,
            &mut self.words,
            &mut self.store,
            fields.rest(),
            target,
        );
        if given.number != 0 {
            return given;
        }
        self.entries = given.first as usize;
        self.used = given.second as usize;
        CAnswer::new(0, &[])
    }

    fn build(&mut self, generation: u64) -> CAnswer {
        let end = self.entries.saturating_mul(3).min(ENTRY_NUMBERS);
        let given = router_build(
            &self.words[..end],
            &self.store,
            &mut self.nodes,
            &mut self.targets,
            generation,
        );
        if given.number == 0 {
            self.node_count = given.first as usize;
            self.target_count = self.entries;
            self.generation = given.third;
        }
        without_second(given)
    }

    fn find(&self, subject: &[u8], out: &mut Targets) -> CAnswer {
        without_second(router_match(
            self.node_count,
            self.target_count,
            &self.nodes,
            &self.targets,
            subject,
            out,
        ))
    }
}

// The generation of a snapshot that is made counts as stamped.
// Kept: field by field, here and where a state is taken out of an answer below: router_words says why.
fn stored(m: CMadeSnapshot) -> CStored {
    CStored {
        number: m.number,
        stamped: m.generation,
        nodes: m.nodes,
        targets: m.targets,
        generation: m.generation,
        next: m.next,
    }
}

impl Standing {
    fn new() -> Standing {
        Standing {
            snapshot: CSnapshot {
                nodes: 0,
                targets: 0,
                generation: 0,
                next: 0,
            },
            area: [0; AREA_WORDS],
        }
    }

    // The snapshot afterwards, and the generation stamped.
    fn after(&mut self, s: CStored) -> CAnswer {
        self.snapshot = CSnapshot {
            nodes: s.nodes as usize,
            targets: s.targets as usize,
            generation: s.generation,
            next: s.next,
        };
        CAnswer::new(s.number, &[0, 0, s.stamped])
    }

    // The generation afterwards. The snapshot is of the table that was built last.
    fn begin(&mut self, list: &List) -> CAnswer {
        let made = router_snapshot_new(
            list.node_count,
            list.target_count,
            list.generation,
            &list.nodes,
            &list.targets,
            &mut self.area,
        );
        self.after(stored(made))
    }

    // The same of the table of no entries.
    fn begin_empty(&mut self) -> CAnswer {
        let made = router_snapshot_empty(&mut self.area);
        self.after(stored(made))
    }

    // The generation stamped, and the one afterwards. The table that was built last is stored.
    fn store(&mut self, list: &List) -> CAnswer {
        let given = router_store(
            self.snapshot,
            list.node_count,
            list.target_count,
            list.generation,
            &list.nodes,
            &list.targets,
            &mut self.area,
        );
        self.after(given)
    }

    fn find(&self, subject: &[u8], out: &mut Targets) -> CAnswer {
        without_second(router_snapshot_match(self.snapshot, &self.area, subject, out))
    }

    fn verdict(&self, subject: &[u8], out: &mut Targets) -> CAnswer {
        let given = router_resolve_single_home(self.snapshot, &self.area, subject, out);
        CAnswer::new(given.number, &[given.kind, given.value])
    }
}

impl Cache {
    fn new() -> Cache {
        Cache {
            state: CCache {
                capacity: 0,
                used: 0,
                generation: 0,
                tick: 0,
                walks: 0,
            },
            stamps: [0; SLOTS],
            keys: [0; KEY_BYTES],
            kept: [0; KEPT_WORDS],
        }
    }

    // The capacity asked for; the one that the cache has is the first value.
    fn begin(&mut self, capacity: u32, out: &mut Targets) -> CAnswer {
        let made = router_cache_new(capacity as usize, &self.stamps, &self.keys, &self.kept);
        self.state = CCache {
            capacity: made.capacity as usize,
            used: made.used as usize,
            generation: made.generation,
            tick: made.tick,
            walks: made.walks,
        };
        self.shown(CAnswer::new(made.number, &[made.capacity]), out)
    }

    fn clear(&mut self, out: &mut Targets) -> CAnswer {
        self.state = router_cache_clear(self.state);
        self.shown(CAnswer::new(0, &[]), out)
    }

    // Kept: it says what it always said of a list that is recorded as longer than it comes, which is held to what the
    // output has there: where an answer's first value is 0, the slot that its second names goes over the output, with
    // zeros behind the last slot.
    fn shown(&self, given: CAnswer, out: &mut Targets) -> CAnswer {
        if given.first == 0 {
            let kept = self.kept.get(given.second as usize..).unwrap_or_default();
            for (i, word) in out.iter_mut().take(MOST_KEPT).enumerate() {
                *word = kept.get(i).copied().unwrap_or_default();
            }
        }
        given
    }

    // The cache afterwards, and the answer.
    fn after(&mut self, r: CResolved, out: &mut Targets) -> CAnswer {
        self.state = CCache {
            capacity: r.capacity as usize,
            used: r.used as usize,
            generation: r.generation,
            tick: r.tick,
            walks: r.walks,
        };
        self.shown(CAnswer::new(r.number, &[r.first, r.second, r.third]), out)
    }

    // Kept: `verdict` differs in the call alone. One method that takes the call was tried: another crate's function,
    // passed by its name, gets no proof (`router_resolve+FnOnce::call_once`), and a closure names its eight parameters.
    fn resolve(&mut self, standing: &Standing, subject: &[u8], out: &mut Targets) -> CAnswer {
        let given = router_resolve(
            self.state,
            &mut self.stamps,
            &mut self.keys,
            &mut self.kept,
            standing.snapshot,
            &standing.area,
            subject,
            out,
        );
        self.after(given, out)
    }

    fn verdict(&mut self, standing: &Standing, subject: &[u8], out: &mut Targets) -> CAnswer {
        let given = router_resolve_single_home_cached(
            self.state,
            &mut self.stamps,
            &mut self.keys,
            &mut self.kept,
            standing.snapshot,
            &standing.area,
            subject,
            out,
        );
        self.after(given, out)
    }
}

// All of it.
#[derive(Drop)]
struct Router {
    list: List,
    standing: Standing,
    caches: [Cache; 2],
    out: Targets,
}

impl Router {
    fn new() -> Router {
        Router {
            list: List::new(),
            standing: Standing::new(),
            caches: [Cache::new(), Cache::new()],
            out: [0; ENTRIES],
        }
    }

    // Makes the call of a record and holds what it gives.
    fn call<R: Print>(&mut self, kind: Kind, record: &mut Record<'_, '_, R>) -> io::Result<()> {
        let fields = record.fields;
        match kind {
            Kind::ParseLiteral => record.hold_answer(router_parse_literal(fields.rest())),
            Kind::Parse => record.hold_answer(router_parse(fields.rest())),
            Kind::Matches => record.hold_answer(matches(fields)),
            Kind::SingleHome => record.hold_answer(single_home(fields, &mut self.out)),
            Kind::NewList => record.hold_answer(self.list.begin()),
            Kind::Insert => record.hold_answer(self.list.insert(fields)),
            Kind::Build => self.build(record),
            Kind::MatchTable => self.match_table(record),
            Kind::NewSnapshot => record.hold_stamped(self.standing.begin(&self.list)),
            Kind::EmptySnapshot => record.hold_stamped(self.standing.begin_empty()),
            Kind::Store => self.store(record),
            Kind::MatchSnapshot => self.match_snapshot(record),
            Kind::Verdict => record.hold_answer(self.verdict(fields)),
            Kind::NewCache => self.new_cache(record),
            Kind::Clear => self.clear(record),
            Kind::Resolve => self.resolve(record),
            Kind::CachedVerdict => self.cached_verdict(record),
        }
    }

    // The generation.
    fn build<R: Print>(&mut self, record: &mut Record<'_, '_, R>) -> io::Result<()> {
        let generation = record.fields.number();
        let given = self.list.build(generation.value);
        record.hold_answer(given)?;
        if given.number != 0 {
            return Ok(());
        }
        record.tally.hold(given.third, generation)
    }

    // The list, then the subject.
    fn match_table<R: Print>(&mut self, record: &mut Record<'_, '_, R>) -> io::Result<()> {
        let mut fields = record.fields;
        let list = fields.list();
        let given = self.list.find(fields.rest(), &mut self.out);
        record.hold_answer(given)?;
        record.hold_list(length_of(given), list, &self.out)
    }

    fn store<R: Print>(&mut self, record: &mut Record<'_, '_, R>) -> io::Result<()> {
        record.hold_stamped(self.standing.store(&self.list))?;
        let generation = record.fields.number();
        record
            .tally
            .hold(self.standing.snapshot.generation, generation)
    }

    // The generation, the list, then the subject.
    fn match_snapshot<R: Print>(&mut self, record: &mut Record<'_, '_, R>) -> io::Result<()> {
        let mut fields = record.fields;
        let generation = fields.number();
        let list = fields.list();
        let given = self.standing.find(fields.rest(), &mut self.out);
        record.hold_answer(given)?;
        record.tally.hold(given.third, generation)?;
        record.hold_list(length_of(given), list, &self.out)
    }

    // The subject.
    fn verdict(&mut self, fields: Fields<'_>) -> CAnswer {
        self.standing.verdict(fields.rest(), &mut self.out)
    }

    // The cache, then the capacity asked for.
    fn new_cache<R: Print>(&mut self, record: &mut Record<'_, '_, R>) -> io::Result<()> {
        self.on_cache(
            record,
            |cache, _, mut fields, out| cache.begin(fields.word().value, out),
        )
    }

    // The cache.
    fn clear<R: Print>(&mut self, record: &mut Record<'_, '_, R>) -> io::Result<()> {
        self.on_cache(record, |cache, _, _, out| cache.clear(out))
    }

    // The cache, the list, then the subject. The original says how long the list of a resolve is, and not where it
    // lies.
    // Kept: by `on_cache` it is no plainer: the list is read behind the cache, and held between the answer and the
    // cache, so that a second call would have to be handed on.
    fn resolve<R: Print>(&mut self, record: &mut Record<'_, '_, R>) -> io::Result<()> {
        let mut fields = record.fields;
        let left = fields.cache();
        let list = fields.list();
        let cache = &mut self.caches[left.which];
        let mut given = cache.resolve(&self.standing, fields.rest(), &mut self.out);
        if given.number == 0 {
            given = CAnswer::new(0, &[given.third]);
        }
        record.hold_answer(given)?;
        record.hold_list(length_of(given), list, &self.out)?;
        record.hold_cache(&cache.state, left)
    }

    // The cache, then the subject.
    fn cached_verdict<R: Print>(&mut self, record: &mut Record<'_, '_, R>) -> io::Result<()> {
        self.on_cache(
            record,
            |cache, standing, fields, out| cache.verdict(standing, fields.rest(), out),
        )
    }

    // The cache, then what a call on it takes: holds what the call gives, and the cache as it leaves it.
    fn on_cache<R: Print, C: FnOnce(&mut Cache, &Standing, Fields<'_>, &mut Targets) -> CAnswer>(
        &mut self,
        record: &mut Record<'_, '_, R>,
        call: C,
    ) -> io::Result<()>
        requires { C.IsAlwaysCallable call }
    {
        let left = record.fields.cache();
        let cache = &mut self.caches[left.which];
        let given = call(cache, &self.standing, record.fields, &mut self.out);
        record.hold_answer(given)?;
        record.hold_cache(&cache.state, left)
    }
}

// The pattern, then the subject.
fn matches(mut fields: Fields<'_>) -> CAnswer {
    let pattern = fields.text();
    router_matches(pattern, fields.rest())
}

// The list. All of the output is written, with what stands behind the list, or zeros.
fn single_home(mut fields: Fields<'_>, out: &mut Targets) -> CAnswer {
    let list = fields.list();
    let mut words = list.fields;
    for word in out.iter_mut() {
        *word = words.word().value;
    }
    let count = usize::from(list.count.value);
    router_single_home(out.get(..count).unwrap_or_default())
}

// ---- The whole recording: the number of records in eight bytes, then the records, each behind its length.

fn replay<R: Print>(tally: &mut Tally<'_, R>, recording: &[u8]) -> io::Result<()> {
    let mut router = Router::new();
    let mut fields = Fields::new(recording);
    let records = fields.number().value;
    for _ in 0..records {
        replay_record(tally, &mut router, Fields::new(fields.text()))?;
    }
    let end = Field {
        at: fields.at,
        value: fields.at as u64,
    };
    tally.hold(recording.len() as u64, end)
}

fn replay_record<R: Print>(
    tally: &mut Tally<'_, R>,
    router: &mut Router,
    mut fields: Fields<'_>,
) -> io::Result<()> {
    tally.records = tally.records.wrapping_add(1);
    let number = fields.byte().value;
    let answer = fields.answer();
    let mut record = Record {
        answer,
        fields,
        tally,
    };
    match Kind::try_from(number) {
        Ok(kind) => {
            record.tally.count(kind);
            router.call(kind, &mut record)
        }
        Err(no_kind) => {
            record.tally.count_no_kind(no_kind);
            record.hold_answer(CAnswer::new(NO_ANSWER, &[]))
        }
    }
}

// Room for a recording. A longer one is replayed as far as the room goes.
const RECORDING_BYTES: usize = 262144;

fn main(rt: HostRuntime) -> io::Result<()> {
    let mut recording = [0u8; RECORDING_BYTES];
    let mut room = recording.as_mut_slice();
    let came = io::copy(&mut rt.reader().take(RECORDING_BYTES as u64), &mut room)?;
    let recording = recording.get(..came as usize).unwrap_or_default();
    let mut tally = Tally::new(&rt);
    replay(&mut tally, recording)?;
    tally.report()
}
