// The walk of a subject over a table, and the match. A table is lent as counts and words, any counts and any words.
#![tactic(auto)]

ghost use Rattle.std.specs.Prelude.{◌≡◌, ℕ, ◌≤◌, ◌<◌, List, [], ◌∷◌, length, take, get_or};
ghost use Rattle.std.proofs.lemmas.List.Edits.{sets};
ghost use Rattle.sublist_walk_rules.specs.Walk.{among, level, push};
ghost use Rattle.subject_rules.specs.Outputs.{outcome};
ghost use Rattle.sublist_walk_rules.specs.Matching.{counts_fit, match_parsed, match_table};
ghost use Rattle.sublist_walk.specs.Answers.{match_answer};
ghost use Rattle.sublist_walk.specs.Told.{collect_in, visit_in, visits_in, exact_in, walk_in};
ghost use Rattle.sublist_walk.specs.Told.{Joins, Lists, Ends, Tries};

use std::marker::Model;
use std::mem;
use subject::{MAX_TEXT, SubjectError};
use sublist_area::{EXACT_START, NODE_WORDS, TAIL_START};
use sublist_area_rules::{Child, ChildKey};
use sublist_walk_rules::Failure;

// The most nodes that a frontier may hold.
pub const MAX_FORK_FRONTIER: usize = 1024;

// Most matches stay within so many nodes in a frontier and so many targets: small arrays serve them.
const NARROW_FRONTIER: usize = 32;

const SHORT_LIST: usize = 64;

// The targets that a match with wider frontiers may have and be settled by one walk: as many as a build takes entries.
const LONG_LIST: usize = 2048;

// A table by its counts of nodes and targets, and the lent areas that have their words.
#[derive(Clone, Copy)]
pub struct Table<'a> {
    pub nodes: usize,
    pub targets: usize,
    pub node_words: &'a [u32],
    pub target_words: &'a [u32],
}

// A list's length and the largest frontier.
#[derive(Clone, Copy)]
pub struct TableMatch {
    pub count: usize,
    pub peak: usize,
}

// Why a match turns back: a refused text, a number that points outside, an output shorter than the list.
#[derive(Clone, Copy)]
pub enum MatchError {
    Invalid(SubjectError),
    Damaged,
    OutShort(usize),
}

// Kept: by hand, as in crossing: a clause names this error, so it needs `from_gives`.
impl From<SubjectError> for MatchError {
    ghost use Rattle.sublist_walk.specs.declared.MatchError.{MatchError};

    ghost from_gives = { λ e r. r ≡ MatchError.Invalid e };

    fn from(error: SubjectError) -> MatchError {
        MatchError::Invalid(error)
    }
}

// A table whose counts fit its areas: the words of its nodes, and the targets that it counts.
#[derive(Clone, Copy)]
struct Counted<'a> {
    nodes: usize,
    node_words: &'a [u32],
    targets: &'a [u32],
}

// The nodes of a frontier, at most LIMIT: the first `count` of them.
// Kept: tried with arrayvec's `ArrayVec`, which overwrites what it held when it is cleared, once a token: a match on
// 1,625 lines is then 1.84 times as fast as the original's, where at least 1.9 times is asked; with this array it is
// 1.99 times (193 and 181 ns).
#[derive(Drop)]
struct Frontier<const LIMIT: usize> {
    nodes: [u32; LIMIT],
    count: usize,
}

impl<const LIMIT: usize> Model for Frontier<LIMIT> {
    ghost Value = { List ℕ };

    ghost view = { λ f. take f.count f.nodes };

    ghost invariant = { λ f. (f.count ≤ LIMIT) × (0 < LIMIT) × (LIMIT ≤ 1024) };
}

impl<const LIMIT: usize> Frontier<LIMIT> {
    fn new() -> Frontier<LIMIT>
        requires { (0 < LIMIT) × (LIMIT ≤ 1024) }
        ensures { result ≡ [] }
    {
        Frontier {
            nodes: [0; LIMIT],
            count: 0,
        }
    }

    // Its nodes, in the order in which they joined.
    fn nodes(&self) -> &[u32]
        ensures nodes { result.now ≡ self.now }
        ensures limit { length self.now ≤ 1024 }
    {
        &self.nodes[..self.count]
    }

    // The root alone.
    #[tactic(auto, using(crate::proofs::Stores::first_set))]
    fn restart(&mut self)
        ensures { self.new ≡ 0 ∷ [] }
    {
        self.nodes[0] = 0;
        self.count = 1;
    }

    // No node.
    fn clear(&mut self)
        ensures { self.new ≡ [] }
    {
        self.count = 0;
    }

    // A child joins, unless it is there.
    #[tactic(auto, unfolding(sublist_walk_rules::specs::Walk::push))]
    fn push(&mut self, child: Child) -> Result<(), Failure>
        ensures { Joins result self.new (push LIMIT (level self.old []) child) }
    {
        if let Child::Damaged = child {
            return Err(Failure::Damaged);
        }
        let Child::Node(id) = child else {
            return Ok(());
        };
        if stands(self.nodes(), id) {
            return Ok(());
        }
        if self.count == LIMIT {
            return Err(Failure::Wide);
        }
        self.nodes[self.count] = id;
        self.count += 1;
        Ok(())
    }
}

// Whether a node stands in a frontier. All are read: a loop with one way out compares several at once.
// Kept: tried with `contains`: a match on 1,625 lines is then 1.82 times as fast as the original's, where at least 1.9
// times is asked; with this loop it is 1.95 times (196 and 183 ns).
#[tactic(auto, using(crate::proofs::Searches::among_more))]
fn stands(front: &[u32], id: u32) -> bool
    ensures { result ≡ among id front.now }
{
    let mut seen = false;
    for node in front {
        seen |= *node == id;
    }
    seen
}

// One of some words, 0 outside them.
fn word_at(words: &[u32], at: usize) -> usize
    ensures { (result ≡ get_or words.now at 0)
        × (result < 4294967296) }
{
    words.get(at).copied().unwrap_or(0) as usize
}

// Words are copied over the first of an output, as many as there is room for. Most often there are none, which a loop
// passes over at once.
// Kept: tried with `copy_from_slice`, which calls memmove once a node: a match on 1,625 lines is then 1.70 times as
// fast as the original's, where at least 1.9 times is asked; with this loop it is 1.95 times (209 and 183 ns).
#[tactic(auto, using(crate::proofs::Stores::copies))]
fn copy_part(words: &[u32], out: &mut [u32])
    ensures { out.new ≡ sets out.old 0 words.now }
{
    let n = words.len().min(out.len());
    for (i, word) in words[..n].iter().enumerate() {
        out[i] = *word;
    }
}

// The targets that words `field` and `field` + 1 of a node say, start and count.
#[tactic(auto, unfolding(sublist_walk_rules::specs::Walk::collect))]
fn collect(table: &Counted<'_>, field: usize, node: u32, out: &mut [u32]) -> Result<usize, Failure>
    requires { field < 16 }
    ensures { Lists result [] out.old out.new 1 (collect_in table.now field node (level [] [])) }
{
    let place = node as usize * NODE_WORDS + field;
    let start = word_at(table.node_words, place);
    let count = word_at(table.node_words, place + 1);
    if table.targets.len() < start + count {
        return Err(Failure::Damaged);
    }
    copy_part(&table.targets[start..start + count], out);
    Ok(count)
}

// One node of a frontier and a token's hash: its `>` targets, then its literal child, then its `*` child.
#[tactic(auto, using(crate::proofs::Visits::one_node))]
fn visit<const LIMIT: usize>(
    table: &Counted<'_>,
    hash: u64,
    node: u32,
    to: &mut Frontier<LIMIT>,
    out: &mut [u32],
) -> Result<usize, Failure>
    ensures { Lists result to.new out.old out.new 1 (visit_in LIMIT table.now hash (level to.old []) node) }
{
    let count = collect(table, TAIL_START, node, out)?;
    let literal = sublist_area::child(table.node_words, table.nodes, node, ChildKey::Literal(hash));
    let star = sublist_area::child(table.node_words, table.nodes, node, ChildKey::Star);
    to.push(literal)?;
    to.push(star)?;
    Ok(count)
}

// The nodes of a frontier in turn, with a token's hash: their children become the next one.
// Kept: tried with one function for this and `collect_exact`, which takes the step as a closure. What it ensures needs
// a definition of calls in turn, over the closure's states, and three `requires`: more than the five lines of a loop.
#[tactic(auto, using(crate::proofs::Visits::fronts), unfolding(sublist_walk_rules::specs::Walk::visits))]
fn visit_front<const LIMIT: usize>(
    table: &Counted<'_>,
    hash: u64,
    from: &Frontier<LIMIT>,
    to: &mut Frontier<LIMIT>,
    out: &mut [u32],
) -> Result<usize, Failure>
    ensures { Lists result to.new out.old out.new 1024 (visits_in LIMIT table.now hash (level [] []) from.now) }
{
    let nodes = from.nodes();
    to.clear();
    let mut count = 0;
    for node in nodes {
        // Kept: cut here and below; a struct of output and count needs a bound on the count so far in each contract.
        let listed = out.len().min(count);
        count += visit(table, hash, *node, to, &mut out[listed..])?;
    }
    Ok(count)
}

// The exact targets of the nodes of a frontier.
#[tactic(auto, using(crate::proofs::Visits::fronts), unfolding(sublist_walk_rules::specs::Walk::exact))]
fn collect_exact<const LIMIT: usize>(
    table: &Counted<'_>,
    front: &Frontier<LIMIT>,
    out: &mut [u32],
) -> Result<usize, Failure>
    ensures { Lists result [] out.old out.new 1024 (exact_in table.now (level [] []) front.now) }
{
    let mut count = 0;
    for node in front.nodes() {
        let listed = out.len().min(count);
        count += collect(table, EXACT_START, *node, &mut out[listed..])?;
    }
    Ok(count)
}

// The list that a subject collects, from the root alone: as much of it as the output holds is written there.
// Two frontiers take turns as the one that stands and the next.
#[tactic(auto, using(crate::proofs::Walks::turns))]
fn walk<const LIMIT: usize>(
    table: &Counted<'_>,
    subject: &[u8],
    first: &mut Frontier<LIMIT>,
    second: &mut Frontier<LIMIT>,
    out: &mut [u32],
) -> Result<TableMatch, Failure>
    requires { length subject.now ≤ 4096 }
    ensures { Ends result out.old out.new (walk_in LIMIT table.now subject.now) }
{
    let mut from = first;
    let mut to = second;
    from.restart();
    let mut count = 0;
    let mut peak = 1;
    for token in subject::new(subject) {
        let listed = out.len().min(count);
        let hash = subject::token_hash(token);
        count += visit_front(table, hash, from, to, &mut out[listed..])?;
        peak = to.nodes().len().max(peak);
        if to.nodes().is_empty() {
            return Ok(TableMatch { count, peak });
        }
        mem::swap(&mut from, &mut to);
    }
    let listed = out.len().min(count);
    count += collect_exact(table, from, &mut out[listed..])?;
    Ok(TableMatch { count, peak })
}

// The match by a walk with frontiers of at most LIMIT nodes; None where one would pass that. A list of at most LIST
// targets is copied to the output; a longer one is written there by a second walk, which finds the same.
#[tactic(auto, using(crate::proofs::Writing::listings))]
fn match_within<const LIMIT: usize, const LIST: usize>(
    counted: &Counted<'_>,
    subject: &[u8],
    out: &mut [u32],
) -> Result<Option<TableMatch>, MatchError>
    requires { (0 < LIMIT)
        × (LIMIT ≤ 1024)
        × (LIST ≤ 2048)
        × (length subject.now ≤ 4096) }
    ensures { Tries result out.old out.new (walk_in LIMIT counted.now subject.now) }
{
    let mut first = Frontier::<LIMIT>::new();
    let mut second = Frontier::<LIMIT>::new();
    let mut list = [0; LIST];
    let found = match walk(counted, subject, &mut first, &mut second, &mut list) {
        Ok(found) => found,
        Err(Failure::Wide) => return Ok(None),
        Err(Failure::Damaged) => return Err(MatchError::Damaged),
    };
    if out.len() < found.count {
        return Err(MatchError::OutShort(found.count));
    }
    if found.count <= LIST {
        copy_part(&list[..found.count], out);
        return Ok(Some(found));
    }
    let _ = walk(counted, subject, &mut first, &mut second, out);
    Ok(Some(found))
}

// 19 on the counts: there is a node, and neither count exceeds its area.
// Kept: no plainer: three contracts name the table's fields one by one, and a word for that in specs/ would be one more
// to look up.
pub fn counts_fit(table: &Table<'_>) -> bool
    ensures { result
        ≡ counts_fit table.now.nodes table.now.targets table.now.node_words.now table.now.target_words.now }
{
    table.nodes != 0
        && table.nodes <= table.node_words.len() / NODE_WORDS
        && table.targets <= table.target_words.len()
}

// A match for a subject that the caller has parsed: 1, then 19, then 21.
// Narrow frontiers come first; where one would pass its limit, all again within the widest.
#[tactic(auto, using(crate::proofs::Writing::stages))]
pub fn match_parsed(
    table: &Table<'_>,
    subject: &[u8],
    out: &mut [u32],
) -> Result<TableMatch, MatchError>
    ensures { outcome (match_answer result) out.new
        ≡ match_parsed table.now.nodes table.now.targets table.now.node_words.now table.now.target_words.now
        subject.now out.old }
{
    if MAX_TEXT < subject.len() {
        return Err(MatchError::Invalid(SubjectError::TooLong));
    }
    if !counts_fit(table) {
        return Err(MatchError::Damaged);
    }
    let counted = Counted {
        nodes: table.nodes,
        node_words: table.node_words,
        targets: &table.target_words[..table.targets],
    };
    match match_within::<NARROW_FRONTIER, SHORT_LIST>(&counted, subject, out)? {
        Some(found) => Ok(found),
        None => match_within::<MAX_FORK_FRONTIER, LONG_LIST>(&counted, subject, out)?.ok_or(
            MatchError::Damaged,
        ),
    }
}

// The list of the targets that a subject matches in a table, written over the first places of the output:
// 1 to 9, then 19, then 21.
#[tactic(auto, using(crate::proofs::Writing::table_refused, crate::proofs::Writing::table_accepted))]
pub fn match_table(
    table: &Table<'_>,
    subject: &[u8],
    out: &mut [u32],
) -> Result<TableMatch, MatchError>
    ensures { outcome (match_answer result) out.new
        ≡ match_table table.now.nodes table.now.targets table.now.node_words.now table.now.target_words.now
        subject.now out.old }
{
    subject::parse_literal(subject)?;
    match_parsed(table, subject, out)
}
