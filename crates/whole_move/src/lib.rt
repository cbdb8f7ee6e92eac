// Up to 64 subjects routed together by the standing table, or none of them. Not in the original.
#![tactic(auto)]

ghost use Rattle.std.specs.Prelude.{◌≡◌, ◌≤◌, true, [], map, length};
ghost use Rattle.std.proofs.Math.Option.{none};
ghost use Rattle.sublist_snapshot.specs.Snapshot.{stands_in, walk_of};
ghost use Rattle.whole_move_rules.specs.Move.{spans_in, text_at, bad_subject, bad_subjects, routes, whole_move};
ghost use Rattle.arrayvec.specs.ArrayVec.{array_vec_len};
ghost use Rattle.whole_move.specs.Answers.{moved};
ghost use Rattle.whole_move.specs.Told.{span_of, refused, Accepted, verdict_of, Within, told};

use arrayvec::ArrayVec;
use binding::Resolution;
use subject::SubjectError;
use sublist_snapshot::StandingTable;
use sublist_walk::MatchError;

// The most subjects of a move.
pub const MAX_MOVE: usize = 64;

// So many targets are written; or the first subject that is not Routed, and its verdict.
#[derive(Clone, Copy)]
pub enum WholeMove {
    Routed(usize),
    Stopped {
        place: usize,
        resolution: Resolution,
    },
}

// Why a move is refused.
#[derive(Clone, Copy)]
pub enum MoveError {
    SetTooLarge,
    BadEntry(usize),
    Invalid { place: usize, error: SubjectError },
    Damaged,
    OutShort(usize),
}

// Subjects of a move, start and length of each: they lie in the bytes and are accepted.
#[derive(Clone, Copy)]
struct Subjects<'a> {
    bytes: &'a [u8],
    spans: &'a [[usize; 2]],
    ghost few: { length spans.now ≤ 64 },
    ghost sound: { bad_subjects bytes.now 0 (map span_of spans.now) ≡ none },
}

// The verdict on an accepted subject. An output of one place is enough: a longer list counts only by its length.
#[tactic(auto, using(crate::proofs::Judging::judged))]
fn verdict(standing: &StandingTable<'_>, subject: &[u8]) -> Result<Resolution, MoveError>
    requires { (stands_in standing.now.snapshot standing.now.area.now ≡ true)
        × Accepted subject.now }
    ensures { result ≡ verdict_of (walk_of standing.now.snapshot standing.now.area.now subject.now) }
{
    let mut one = [0u32; 1];
    match standing.match_parsed(subject, &mut one) {
        Ok(found) => Ok(binding::single_home(&one[..found.count])),
        Err(MatchError::OutShort(matched)) => Ok(Resolution::Ambiguous { matched }),
        Err(MatchError::Damaged) => Err(MoveError::Damaged),
        // No accepted subject gets this.
        Err(MatchError::Invalid(_)) => Err(MoveError::Damaged),
    }
}

impl Subjects<'_> {
    // The subjects in turn, each Routed one's target behind those before it, up to the first that is not Routed.
    #[tactic(auto, using(crate::proofs::Routing::turns))]
    fn route(
        &self,
        standing: &StandingTable<'_>,
        targets: &mut ArrayVec<u32, MAX_MOVE>,
    ) -> Result<WholeMove, MoveError>
        requires fits { stands_in standing.now.snapshot standing.now.area.now ≡ true }
        requires empty { targets.old.items ≡ [] }
        ensures within { Within result (array_vec_len targets.new) }
        ensures told { told result targets.new.items
            ≡ routes (walk_of standing.now.snapshot standing.now.area.now) 0
            (map (text_at self.now.bytes.now) (map span_of self.now.spans.now)) }
    {
        for (place, span) in self.spans.iter().enumerate() {
            let end = span[0] + span[1];
            let resolution = verdict(standing, &self.bytes[span[0]..end])?;
            let Some(target) = resolution.routed() else {
                return Ok(WholeMove::Stopped { place, resolution });
            };
            targets.push(target);
        }
        Ok(WholeMove::Routed(targets.len()))
    }
}

// 12 before 1 to 9.
// Kept: `check_entry` of sublist takes a part of a text by the same two calls of the library. A function for both would
// be a public one of `subject`, with a contract and an edit of its own: more lines than the one that it saves.
fn check_subject(bytes: &[u8], place: usize, span: &[usize; 2]) -> Result<(), MoveError>
    ensures { refused result ≡ bad_subject bytes.now place (span_of span.now) }
{
    let text = bytes
        .get(span[0]..)
        .and_then(|rest| rest.get(..span[1]))
        .ok_or(MoveError::BadEntry(place))?;
    subject::parse_literal(text).map_err(|error| MoveError::Invalid { place, error })?;
    Ok(())
}

// The earliest subject that is not sound.
fn check_subjects(bytes: &[u8], spans: &[[usize; 2]]) -> Result<(), MoveError>
    ensures { refused result ≡ bad_subjects bytes.now 0 (map span_of spans.now) }
{
    for (place, span) in spans.iter().enumerate() {
        check_subject(bytes, place, span)?;
    }
    Ok(())
}

// Each subject's Routed target, in list order, over the first places of the output; or the first subject that is not
// Routed. Two numbers a subject say where it lies in the bytes, start and length; a number left over counts for none.
// 22; subject by subject 12 or 1 to 9; 19; the verdicts; 21. The output is as it was unless every target is written.
#[tactic(auto, using(crate::proofs::Ways::ways))]
pub fn whole_move(
    standing: &StandingTable<'_>,
    bytes: &[u8],
    spans: &[usize],
    out: &mut [u32],
) -> Result<WholeMove, MoveError>
    ensures { moved result out.new
        ≡ whole_move standing.now.snapshot standing.now.area.now
        bytes.now (spans_in spans.now) out.old }
{
    // Kept: the spans are plain numbers, two a subject, since the C interface lends them.
    let (spans, _) = spans.as_chunks::<2>();
    if MAX_MOVE < spans.len() {
        return Err(MoveError::SetTooLarge);
    }
    check_subjects(bytes, spans)?;
    if !standing.stands() {
        return Err(MoveError::Damaged);
    }
    let subjects = Subjects { bytes, spans };
    let mut targets = ArrayVec::new();
    let answer = subjects.route(standing, &mut targets)?;
    let WholeMove::Routed(count) = answer else {
        return Ok(answer);
    };
    if out.len() < count {
        return Err(MoveError::OutShort(count));
    }
    out[..count].copy_from_slice(&targets);
    Ok(answer)
}
