// The match and the resolve on areas of bytes: their numbers are copied, and an accepted call's are written back.
#![tactic(auto)]

ghost use Rattle.std.specs.Prelude.{◌≡◌, ltb, ℕ, List, ◌-◌, ◌+◌, ◌*◌, ◌/◌, ◌<◌, ◌≤◌, length, map, sum};
ghost use Rattle.std.specs.List.{flat_map};
ghost use Rattle.std.specs.Simd.{first_chunks};
ghost use Rattle.subject_rules.specs.Outputs.{outcome, over};
ghost use Rattle.resolve_cache_rules.specs.Answers.{lent};
ghost use Rattle.router_bytes_rules.specs.Bytes.{copy_bytes, spelled, spelling};
ghost use Rattle.router_bytes_rules.specs.Bytes.{match_bytes, resolve_bytes};
ghost use Rattle.router_bytes.specs.Answers.{bytes_match_answer, left_bytes};

use resolve_cache::{ListPlace, ResolveError};
use resolve_cache_rules::{Answered, ResolveCache};
use sublist_snapshot::{Snapshot, StandingTable};
use sublist_walk::{MatchError, Table, TableMatch};

// The copies of a call's areas hold so many bytes.
pub const COPY_BYTES: usize = 65536;

// Why a call on bytes is refused: 99, the areas are more than the copies hold; or as the call on the copies is.
#[derive(Clone, Copy)]
pub enum BytesError<E> {
    CopyFull,
    Refused(E),
}

impl<E> From<E> for BytesError<E> {
    ghost use Rattle.router_bytes.specs.declared.BytesError.{BytesError};

    ghost from_gives = { λ e r. r ≡ BytesError.Refused e };

    fn from(error: E) -> BytesError<E> {
        BytesError::Refused(error)
    }
}

// Numbers that stand as so many bytes, lowest byte first.
trait Spelled<const WIDTH: usize>: Copy {
    // the number that bytes spell
    ghost read: { List ℕ → Self };

    // the bytes that spell a number
    ghost spell: { Self → List ℕ };

    fn from_bytes(bytes: [u8; WIDTH]) -> Self
        ensures { result ≡ read bytes.entry };

    fn to_bytes(self) -> [u8; WIDTH]
        ensures { result ≡ spell self };
}

impl Spelled<4> for u32 {
    ghost read = { spelled };

    ghost spell = { spelling 4 };

    fn from_bytes(bytes: [u8; 4]) -> u32
        ensures { result ≡ spelled bytes }
    {
        u32::from_le_bytes(bytes)
    }

    fn to_bytes(self) -> [u8; 4]
        ensures { result ≡ spelling 4 self }
    {
        self.to_le_bytes()
    }
}

impl Spelled<8> for u64 {
    ghost read = { spelled };

    ghost spell = { spelling 8 };

    fn from_bytes(bytes: [u8; 8]) -> u64
        ensures { result ≡ spelled bytes }
    {
        u64::from_le_bytes(bytes)
    }

    fn to_bytes(self) -> [u8; 8]
        ensures { result ≡ spelling 8 self }
    {
        self.to_le_bytes()
    }
}

// The whole numbers of bytes are read into a room: the numbers, and what is left of the room.
fn load<'a, const WIDTH: usize, T: Spelled<WIDTH>>(
    bytes: &[u8],
    room: &'a mut [T],
) -> (&'a mut [T], &'a mut [T])
    requires width { (0 < WIDTH) × (WIDTH ≤ 8) }
    requires fits { length bytes.now ≤ length room.old * WIDTH }
    ensures loaded { result.0.now ≡ map T.read (first_chunks WIDTH (length bytes.now / WIDTH) bytes.now) }
    ensures left { length result.1.now ≡ length room.old - length bytes.now / WIDTH }
{
    let (parts, _) = bytes.as_chunks::<WIDTH>();
    let (numbers, rest) = room.split_at_mut(parts.len());
    // Kept: tried as a zip over `iter_mut`: the goal `loaded` stays, since a proof then knows only how many numbers
    // there are.
    for (i, part) in parts.iter().enumerate() {
        numbers[i] = T::from_bytes(*part);
    }
    (numbers, rest)
}

// Numbers are written over the first bytes.
fn store<const WIDTH: usize, T: Spelled<WIDTH>>(numbers: &[T], bytes: &mut [u8])
    requires { length numbers.now * WIDTH ≤ length bytes.old }
    ensures { bytes.new ≡ over (flat_map T.spell numbers.now) bytes.old }
{
    // Kept: tried as a zip over `chunks_exact_mut`: the equation stays open, since a proof then knows only how many
    // bytes there are.
    for (i, number) in numbers.iter().enumerate() {
        let at = i * WIDTH;
        bytes[at..at + WIDTH].copy_from_slice(&number.to_bytes());
    }
}

// 99: whether areas of so many bytes are together more than the copies hold.
fn copies_full(sizes: &[usize]) -> bool
    ensures { result ≡ ltb copy_bytes (sum sizes.now) }
{
    sizes
        .iter()
        .fold(0usize, |all, size| all.saturating_add(*size))
        > COPY_BYTES
}

// The match on areas of bytes; whole words count. 99 if the three areas are together more than the copies hold.
#[tactic(auto, using(crate::proofs::Copies::match_down))]
pub fn match_bytes(
    nodes: usize,
    targets: usize,
    node_bytes: &[u8],
    target_bytes: &[u8],
    subject: &[u8],
    out_bytes: &mut [u8],
) -> Result<TableMatch, BytesError<MatchError>>
    ensures { outcome (bytes_match_answer result) out_bytes.new
        ≡ match_bytes nodes targets node_bytes.now target_bytes.now
        subject.now out_bytes.old }
{
    if copies_full(&[node_bytes.len(), target_bytes.len(), out_bytes.len()]) {
        return Err(BytesError::CopyFull);
    }
    let mut copies = [0u32; COPY_BYTES / 4];
    let mut out_copy = [0u32; COPY_BYTES / 4];
    let (node_words, rest) = load(node_bytes, &mut copies);
    let (target_words, _) = load(target_bytes, rest);
    let (out, _) = load(out_bytes, &mut out_copy);
    let table = Table {
        nodes,
        targets,
        node_words,
        target_words,
    };
    let found = sublist_walk::match_table(&table, subject, out)?;
    store(out, out_bytes);
    Ok(found)
}

// The resolve on areas of bytes, eight bytes a number of `stamps` and four a word of the others; whole ones count.
// 99 if stamps, kept, area and out are together more than the copies hold.
// Kept: the snapshot and its area are two parameters, since the area is bytes here, and a `StandingTable` has words.
#[tactic(auto, using(crate::proofs::Resolving::resolve_full))]
pub fn resolve_bytes(
    cache: ResolveCache,
    stamps: &mut [u8],
    keys: &mut [u8],
    kept: &mut [u8],
    snapshot: Snapshot,
    area: &[u8],
    subject: &[u8],
    out: &mut [u8],
) -> Answered<Result<ListPlace, BytesError<ResolveError>>>
    ensures { left_bytes result (lent stamps.new keys.new kept.new) out.new
        ≡ resolve_bytes cache (lent stamps.old keys.old kept.old)
        snapshot area.now subject.now out.old }
{
    if copies_full(&[stamps.len(), kept.len(), area.len(), out.len()]) {
        return Answered {
            cache,
            answer: Err(BytesError::CopyFull),
        };
    }
    let mut stamps_copy = [0u64; COPY_BYTES / 8];
    let mut kept_copy = [0u32; COPY_BYTES / 4];
    let mut area_copy = [0u32; COPY_BYTES / 4];
    let mut out_copy = [0u32; COPY_BYTES / 4];
    let (stamp_numbers, _) = load(stamps, &mut stamps_copy);
    let (kept_words, _) = load(kept, &mut kept_copy);
    let (area_words, _) = load(area, &mut area_copy);
    let (out_words, _) = load(out, &mut out_copy);
    let standing = StandingTable {
        snapshot,
        area: area_words,
    };
    let resolved = resolve_cache::resolve(
        cache,
        stamp_numbers,
        keys,
        kept_words,
        &standing,
        subject,
        out_words,
    );
    if resolved.answer.is_ok() {
        store(stamp_numbers, stamps);
        store(kept_words, kept);
        store(out_words, out);
    }
    Answered {
        cache: resolved.cache,
        answer: resolved.answer.map_err(BytesError::Refused),
    }
}
