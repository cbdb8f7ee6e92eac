// Matches on a lent table, its words lent as words or as bytes.
ghost use Rattle.sublist_walk_rules.specs.Matching.{match_table};
ghost use Rattle.router_words.specs.Words.{Says, Writes};
ghost use Rattle.router_bytes_rules.specs.Bytes.{match_bytes};
ghost use Rattle.router_bytes.specs.Answers.{bytes_match_answer};

use router_bytes::BytesError;
use router_words::CAnswer;
use sublist_walk::{MatchError, Table, TableMatch, match_table};

// The targets that a subject matches in a table, written over the first places of the output.
// The answer has their number and the peak, or why not.
pub fn router_match(
    nodes: usize,
    targets: usize,
    node_words: &[u32],
    target_words: &[u32],
    subject: &[u8],
    out: &mut [u32],
) -> CAnswer
    ensures { Writes result out.new
        (match_table nodes targets node_words.now target_words.now
        subject.now out.old) }
{
    let table = Table {
        nodes,
        targets,
        node_words,
        target_words,
    };
    match_table(&table, subject, out).into()
}

// A match on bytes: what the match on the copies tells, or 99.
// Kept: one function for this and cabinet's `told` would say its answer by any `from`, in a definition of its own, and
// need a lemma for each of the two contracts: more words than these arms.
fn told(m: Result<TableMatch, BytesError<MatchError>>) -> CAnswer
    ensures { Says result (bytes_match_answer m) }
{
    match m {
        Ok(found) => CAnswer::from(Ok(found)),
        Err(BytesError::CopyFull) => CAnswer::new(99, &[]),
        Err(BytesError::Refused(e)) => e.into(),
    }
}

// The match on areas of bytes, lowest byte of a word first; whole words count.
// 99 if the three areas are together more than 65,536 bytes.
pub fn router_match_bytes(
    nodes: usize,
    targets: usize,
    node_bytes: &[u8],
    target_bytes: &[u8],
    subject: &[u8],
    out_bytes: &mut [u8],
) -> CAnswer
    ensures { Writes result out_bytes.new
        (match_bytes nodes targets node_bytes.now target_bytes.now
        subject.now out_bytes.old) }
{
    told(router_bytes::match_bytes(nodes, targets, node_bytes, target_bytes, subject, out_bytes))
}
