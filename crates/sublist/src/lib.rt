// The table that a build makes of a list of entries. A port of IronBus's SublistBuilder, its `build`.
#![tactic(auto)]

ghost use Rattle.std.specs.Prelude.{◌≡◌, ◌+◌, ◌-◌, ◌*◌, ◌/◌, ◌%◌, ◌<◌, ◌≤◌, [], map, length, take, slice_set, IfOk};
ghost use Rattle.subject_rules.specs.Text.{tokens};
ghost use Rattle.subject_rules.specs.Fnv.{fnv};
ghost use Rattle.sublist_tree.specs.Tree.{line_of};
ghost use Rattle.sublist_area_rules.specs.Words.{words_per_node, word, token_key, key_of};
ghost use Rattle.sublist_area_rules.specs.Growing.{placed_at};
ghost use Rattle.sublist_entries.specs.Entries.{max_entries, text_of, target_word, entry_at, lines_of};
ghost use Rattle.sublist_entries.specs.Numbers.{entries_in};
ghost use Rattle.sublist_rules.specs.Building.{bad_entry, needed};
ghost use Rattle.sublist_rules.specs.Passes.{growth, counted, count_word, start_word, line_in, lines_in};
ghost use Rattle.sublist_rules.specs.Passes.{node_worst, told, settled, laid_at, laid, filling, filled_by, filled};
ghost use Rattle.sublist_rules.specs.Leaving.{build_into};
ghost use Rattle.sublist_rules.specs.Core.{run_in, list_refused, all_in, root_worst, targets_of, finish_by};
ghost use Rattle.sublist.specs.Answers.{built};
ghost use Rattle.sublist.specs.Sharing.{same_key, shared_by, longest};
ghost use Rattle.sublist.specs.Told.{refused, end_of, ended_as, grown_as};
ghost use Rattle.sublist.specs.Told.{HasNode, HasNodes, EndBelow, EndFits, AllFit};

use arrayvec::ArrayVec;
use std::marker::Model;
use subject::{SubjectError, is_star, is_tail, same_bytes, token_hash};
use sublist_area::{
    EXACT_COUNT, EXACT_START, NODE_WORDS, PARENT, STAR_CHILD, TAIL_COUNT, TAIL_START,
};
use sublist_area_rules::{ChildKey, PlaceError, Placed};
use sublist_entries::{Entry, EntryForm, MAX_ENTRIES};
use sublist_walk::MAX_FORK_FRONTIER;

// The worst case of a node's `*` child stands where its exact targets will start.
const STAR_WORST: usize = EXACT_START;

// The worst case of its literal children stands where its `>` targets will start.
const LITERAL_WORST: usize = TAIL_START;

// Why a build is refused: 01's numbers 10 and 12 to 16, in order.
#[derive(Clone, Copy)]
pub enum SublistError {
    EntriesFull,
    BadEntry(usize),
    InvalidPattern(SubjectError),
    NodesFull(usize),
    TargetsFull,
    ForkLimitExceeded { worst_case: usize, limit: usize },
}

// Kept: by hand, as in crossing: a clause names this error, so it needs `from_gives`.
impl From<SubjectError> for SublistError {
    ghost use Rattle.std.specs.Prelude.{◌≡◌};
    ghost use Rattle.sublist.specs.declared.SublistError.TheVariants.{InvalidPattern};

    ghost from_gives = { λ e r. r ≡ InvalidPattern e };

    fn from(e: SubjectError) -> SublistError {
        SublistError::InvalidPattern(e)
    }
}

// A table that was built: its node count and worst case, and the generation.
#[derive(Clone, Copy)]
pub struct Built {
    pub nodes: usize,
    pub worst_case: usize,
    pub generation: u64,
}

// Where a pattern ends: at a node, or at the `>` behind it.
// Kept: `tail` is a flag, as the definitions take it (`counted a j tail`, `start_word tail`); with two kinds of end the
// contracts that cite these would need one word more, which turns a kind into it.
#[derive(Clone, Copy, Default)]
struct LineEnd {
    node: u32,
    tail: bool,
}

// Where the patterns of a list end, in order.
type Ends = ArrayVec<LineEnd, MAX_ENTRIES>;

// Where a pattern ended, and the node count afterwards.
#[derive(Clone, Copy)]
struct Ended {
    end: LineEnd,
    count: usize,
}

// A list of entries of either form, with its text store: no more entries than a list may have, and none refused.
#[derive(Drop)]
struct Listing<'a, F: EntryForm> {
    entries: &'a [F],
    store: &'a [u8],
}

impl<'a, F: EntryForm> Model for Listing<'a, F> {
    ghost use Rattle.std.specs.Prelude.{◌≡◌};
    ghost use Rattle.std.proofs.Math.Option.{none};
    ghost use Rattle.sublist_rules.specs.Core.{list_refused};
    ghost use Rattle.sublist.specs.Listed.{Listed};

    ghost Value = { Listed };

    ghost view = { λ l. record { entries = F.entries l.entries.now; store = l.store.now } };

    ghost invariant = { λ l. list_refused (F.entries l.entries.now) l.store.now ≡ none };
}

impl<'a, F: EntryForm> Listing<'a, F> {
    // 10, then entry by entry 12 before 13.
    fn new(entries: &'a [F], store: &'a [u8]) -> Result<Listing<'a, F>, SublistError>
        ensures refused { refused result ≡ list_refused (F.entries entries.now) store.now }
        ensures same { IfOk result
            (λ l. (l.entries ≡ F.entries entries.now) × (l.store ≡ store.now)) }
    {
        if MAX_ENTRIES < F::count(entries) {
            return Err(SublistError::EntriesFull);
        }
        for i in 0..F::count(entries) {
            check_entry(store, i, F::entry(entries, i).unwrap())?;
        }
        Ok(Listing { entries, store })
    }

    fn count(&self) -> usize
        ensures count { result ≡ length self.now.entries }
        ensures few { result ≤ max_entries }
    {
        F::count(self.entries)
    }

    // The text of an entry.
    #[tactic(auto, using(crate::proofs::Checks::text_inside, crate::proofs::Checks::text_depth))]
    fn text(&self, i: usize) -> &'a [u8]
        requires { i < length self.now.entries }
        ensures text { result.now ≡ text_of self.now.store (entry_at self.now.entries i) }
        ensures depth { length (tokens result.now) ≤ 32 }
    {
        let e = F::entry(self.entries, i).unwrap();
        &self.store[e.start..e.start + e.length]
    }

    // The target of an entry.
    fn target(&self, i: usize) -> u32
        requires { i < length self.now.entries }
        ensures { result ≡ target_word (entry_at self.now.entries i) }
    {
        F::entry(self.entries, i).unwrap().target
    }
}

// 12 before 13.
// Kept: `check_subject` of whole_move takes a part of a text as the first line does, by two calls of the library; one
// public function for both would be longer than they are, with its contract and an edit.
fn check_entry(store: &[u8], index: usize, e: Entry) -> Result<(), SublistError>
    ensures { refused result ≡ bad_entry store.now index e }
{
    let text = store.get(e.start..).and_then(|rest| rest.get(..e.length));
    let Some(text) = text else {
        return Err(SublistError::BadEntry(index));
    };
    subject::parse(text)?;
    Ok(())
}

// A word of a node.
fn node_word(node_words: &[u32], node: usize, field: usize) -> u32
    requires { HasNode node_words.now node × (field < words_per_node) }
    ensures { result ≡ word node_words.now node field }
{
    node_words[node * NODE_WORDS + field]
}

// A word of a node gets a value.
fn set_word(node_words: &mut [u32], node: usize, field: usize, value: u32)
    requires { HasNode node_words.old node × (field < words_per_node) }
    ensures { node_words.new ≡ slice_set node_words.old (node * words_per_node + field) value }
{
    node_words[node * NODE_WORDS + field] = value;
}

// The key of a token that is no `>`.
fn child_key(token: &[u8]) -> ChildKey
    ensures { key_of result ≡ token_key token.now }
{
    if is_star(token) {
        ChildKey::Star
    } else {
        ChildKey::Literal(token_hash(token))
    }
}

// A pattern's run of tokens is put in from the root.
// Kept: nodes and their count apart; in a struct each pass would have to add that its `&mut` is the same and as long.
#[tactic(auto, using(crate::proofs::Runs::run_end))]
fn insert_pattern(node_words: &mut [u32], nodes: usize, text: &[u8]) -> Result<Ended, PlaceError>
    requires { HasNodes node_words.old nodes }
    ensures run { ended_as result node_words.new
        ≡ run_in (placed_at 0 nodes, node_words.old) (line_of fnv (tokens text.now) 0) }
    ensures fits { IfOk result (EndFits (length node_words.old)) }
{
    let mut at = Placed {
        node: 0,
        count: nodes,
    };
    for token in subject::new(text) {
        if is_tail(token) {
            return Ok(Ended {
                end: LineEnd {
                    node: at.node,
                    tail: true,
                },
                count: at.count,
            });
        }
        at = sublist_area::child_or_new(node_words, at.count, at.node, child_key(token))?;
    }
    Ok(Ended {
        end: LineEnd {
            node: at.node,
            tail: false,
        },
        count: at.count,
    })
}

// The word where a node's exact or `>` targets start. The word behind it counts them.
fn start_word(tail: bool) -> usize
    ensures { (result ≡ start_word tail)
        × (result + 1 ≡ count_word tail)
        × (result + 1 < words_per_node) }
{
    if tail { TAIL_START } else { EXACT_START }
}

// One target more of a node.
#[tactic(auto, unfolding(sublist_rules::specs::Passes::counted))]
fn count_end(node_words: &mut [u32], end: LineEnd)
    requires { HasNode node_words.old end.node }
    ensures { node_words.new ≡ counted node_words.old end.node end.tail }
{
    let node = end.node as usize;
    let field = start_word(end.tail) + 1;
    let more = node_word(node_words, node, field).wrapping_add(1);
    set_word(node_words, node, field, more);
}

// A pattern's run of tokens is put in, and its end counts it.
#[tactic(auto, using(crate::proofs::Lines::line_ends, crate::proofs::Lines::line_stops))]
fn insert_line(node_words: &mut [u32], nodes: usize, text: &[u8]) -> Result<Ended, PlaceError>
    requires { HasNodes node_words.old nodes }
    ensures line { ended_as result node_words.new
        ≡ line_in (growth nodes node_words.old []) (line_of fnv (tokens text.now) 0) }
    ensures fits { IfOk result (EndFits (length node_words.old)) }
{
    let ended = insert_pattern(node_words, nodes, text)?;
    count_end(node_words, ended.end);
    Ok(ended)
}

// First pass: each entry's run is put in, its end counts it and is noted. The answer is the node count.
// Kept: over the list by place, here and in `new` above and `longest_shared` and `nodes_needed` below, since a form
// reads an entry by its place; an iterator would need a type of its own that counts the places by hand.
// Kept: a listing, its table's words and its ends apart, here and at `grow_table`, `put_targets` and `finish` below; in
// a struct each pass would have to add that the listing is the same, and the `&mut` the same and as long.
#[tactic(auto, using(crate::proofs::Lines::lines_stop, crate::proofs::Lines::lines_end))]
fn insert_entries<F: EntryForm>(
    list: &Listing<'_, F>,
    node_words: &mut [u32],
    ends: &mut Ends,
) -> Result<usize, PlaceError>
    requires room { words_per_node ≤ length node_words.old }
    requires empty { ends.old.items ≡ [] }
    ensures lines { grown_as result node_words.new (map end_of ends.new.items)
        ≡ lines_in (growth 1 node_words.old []) (lines_of list.now.store list.now.entries) }
    ensures fits { IfOk result (AllFit (length list.now.entries) ends.new.items (length node_words.old)) }
{
    let mut nodes = 1;
    for i in 0..list.count() {
        let ended = insert_line(node_words, nodes, list.text(i))?;
        ends.push(ended.end);
        nodes = ended.count;
    }
    Ok(nodes)
}

// The root, and the first pass.
#[tactic(auto, unfolding(sublist_area_rules::specs::Growing::rooted))]
fn grow_table<F: EntryForm>(
    list: &Listing<'_, F>,
    node_words: &mut [u32],
    ends: &mut Ends,
) -> Result<usize, PlaceError>
    requires { ends.old.items ≡ [] }
    ensures all { grown_as result node_words.new (map end_of ends.new.items)
        ≡ all_in list.now.entries list.now.store node_words.old }
    ensures fits { IfOk result (AllFit (length list.now.entries) ends.new.items (length node_words.old)) }
{
    sublist_area::plant(node_words)?;
    insert_entries(list, node_words, ends)
}

// Whether two tokens are equal keys: both `*`, or literals of equal hash. A `>` is no key.
#[tactic(auto, using(crate::proofs::Alike::same_hash), unfolding(crate::specs::Sharing::same_key))]
fn same_key(s: &[u8], t: &[u8]) -> bool
    ensures { result ≡ same_key s.now t.now }
{
    if is_tail(s) || is_tail(t) {
        return false;
    }
    if is_star(s) != is_star(t) {
        return false;
    }
    // Tokens of equal bytes need no hashes, nor does a `*` beside a literal.
    same_bytes(s, t) || token_hash(s) == token_hash(t)
}

// The number of keys that two patterns begin with alike.
fn shared_run(a: &[u8], b: &[u8]) -> usize
    ensures { result ≡ shared_by a.now b.now }
{
    subject::new(a)
        .zip(subject::new(b))
        .take_while(|(s, t)| same_key(s, t))
        .count()
}

// The most keys that a pattern begins with alike with one of the first i entries.
#[tactic(auto, using(crate::proofs::OneMore::longest_none, crate::proofs::OneMore::longest_next))]
fn longest_shared<F: EntryForm>(text: &[u8], list: &Listing<'_, F>, i: usize) -> usize
    requires { i ≤ length list.now.entries }
    ensures { result ≡ longest list.now.store text.now (take i list.now.entries) }
{
    let mut most = 0;
    for j in 0..i {
        most = most.max(shared_run(text, list.text(j)));
    }
    most
}

// How many nodes the entries need: the root, and for each entry its keys, less the longest run that it shares with an
// earlier one. A pattern begins alike with itself by all its keys.
fn nodes_needed<F: EntryForm>(list: &Listing<'_, F>) -> usize
    ensures { result ≡ needed list.now.store list.now.entries }
{
    let mut needed = 1;
    for i in 0..list.count() {
        let text = list.text(i);
        needed += shared_run(text, text) - longest_shared(text, list, i);
    }
    needed
}

// The worst case of a node, from those of its `*` child and of its literal children; more than a word holds is the
// largest word.
fn node_worst(node_words: &[u32], i: usize) -> u32
    requires { HasNode node_words.now i }
    ensures { result ≡ node_worst node_words.now i }
{
    let star = node_word(node_words, i, STAR_WORST);
    let literal = node_word(node_words, i, LITERAL_WORST);
    star.saturating_add(literal).max(1)
}

// A node's parent is told its worst case.
#[tactic(auto, unfolding(sublist_rules::specs::Passes::told))]
fn tell(node_words: &mut [u32], i: usize)
    requires { HasNode node_words.old i }
    ensures { node_words.new
        ≡ told node_words.old i (word node_words.old i 12) }
{
    let parent = node_word(node_words, i, PARENT) as usize;
    if i <= parent {
        return;
    }
    let worst = node_worst(node_words, i);
    if node_word(node_words, parent, STAR_CHILD) as usize == i {
        set_word(node_words, parent, STAR_WORST, worst);
        return;
    }
    let most = node_word(node_words, parent, LITERAL_WORST).max(worst);
    set_word(node_words, parent, LITERAL_WORST, most);
}

// Second pass: the worst case of each node, told to its parent; the answer is the root's.
#[tactic(auto, using(crate::proofs::Turns::settle_on, crate::proofs::Turns::settle_end))]
fn settle(node_words: &mut [u32], count: usize) -> usize
    requires { HasNodes node_words.old count }
    ensures { (node_words.new ≡ settled node_words.old (count - 1))
        × (result ≡ root_worst node_words.new) }
{
    for i in (1..count).rev() {
        tell(node_words, i);
    }
    let star = node_word(node_words, 0, STAR_WORST) as usize;
    let literal = node_word(node_words, 0, LITERAL_WORST) as usize;
    (star + literal).max(1)
}

// Where the targets of a node start, exact ones before `>` ones; its counts start again at 0. The answer is where the
// targets behind them start.
#[tactic(auto, unfolding(sublist_rules::specs::Passes::laid_at))]
fn lay_node(node_words: &mut [u32], i: usize, from: u32) -> u32
    requires { HasNode node_words.old i }
    ensures node { node_words.new ≡ laid_at node_words.old i from }
    ensures behind { result ≡ (from + word node_words.old i 5 + word node_words.old i 7) % 4294967296 }
{
    let tails = from.wrapping_add(node_word(node_words, i, EXACT_COUNT));
    let behind = tails.wrapping_add(node_word(node_words, i, TAIL_COUNT));
    set_word(node_words, i, EXACT_START, from);
    set_word(node_words, i, EXACT_COUNT, 0);
    set_word(node_words, i, TAIL_START, tails);
    set_word(node_words, i, TAIL_COUNT, 0);
    behind
}

// Third pass: the nodes' targets, one node behind the other.
// Kept: tried over `chunks_exact_mut(NODE_WORDS)`: once that loan is over, a proof knows no more of the words than how
// many there are, so the equation with `laid` stays open.
#[tactic(auto, using(crate::proofs::Turns::lay_on, crate::proofs::Turns::lay_end))]
fn lay(node_words: &mut [u32], count: usize)
    requires { HasNodes node_words.old count }
    ensures { node_words.new ≡ laid node_words.old 0 count 0 }
{
    let mut from = 0;
    for i in 0..count {
        from = lay_node(node_words, i, from);
    }
}

// A target's place, if there is one, gets it.
fn put_at(target_words: &mut [u32], at: usize, target: u32)
    ensures { target_words.new ≡ slice_set target_words.old at target }
{
    // Kept: a proof knows no more of the words after `get_mut` than how many there are, so the equation with
    // `slice_set` stays open.
    if at < target_words.len() {
        target_words[at] = target;
    }
}

// A target is put behind those that its end has.
#[tactic(auto, unfolding(sublist_rules::specs::Passes::filled_by))]
fn put_target(node_words: &mut [u32], target_words: &mut [u32], end: LineEnd, target: u32)
    requires { HasNode node_words.old end.node }
    ensures { filling node_words.new target_words.new
        ≡ filled_by (filling node_words.old target_words.old) (end_of end) target }
{
    let node = end.node as usize;
    let field = start_word(end.tail);
    let start = node_word(node_words, node, field);
    let count = node_word(node_words, node, field + 1);
    put_at(target_words, start as usize + count as usize, target);
    count_end(node_words, end);
}

// Fourth pass: each entry's target is put behind those that its end has.
#[tactic(auto, using(crate::proofs::Turns::fill_on, crate::proofs::Turns::fill_end))]
fn put_targets<F: EntryForm>(
    list: &Listing<'_, F>,
    node_words: &mut [u32],
    target_words: &mut [u32],
    ends: &[LineEnd],
)
    requires each { length ends.now ≡ length list.now.entries }
    requires below { EndBelow (length node_words.old / words_per_node) ends.now }
    ensures { filling node_words.new target_words.new
        ≡ filled (filling node_words.old target_words.old)
        (map end_of ends.now) (targets_of list.now.entries) }
{
    for (i, end) in ends.iter().enumerate() {
        put_target(node_words, target_words, *end, list.target(i));
    }
}

// 15, 16, and the other passes, over so many nodes.
fn finish<F: EntryForm>(
    list: &Listing<'_, F>,
    node_words: &mut [u32],
    target_words: &mut [u32],
    ends: &[LineEnd],
    nodes: usize,
    generation: u64,
) -> Result<Built, SublistError>
    requires { AllFit (length list.now.entries) ends.now (length node_words.old) nodes }
    ensures { built result node_words.new target_words.new
        ≡ finish_by list.now.entries 0 target_words.old generation
        (growth nodes node_words.old (map end_of ends.now)) }
{
    if target_words.len() < list.count() {
        return Err(SublistError::TargetsFull);
    }
    let worst_case = settle(node_words, nodes);
    if MAX_FORK_FRONTIER < worst_case {
        return Err(SublistError::ForkLimitExceeded {
            worst_case,
            limit: MAX_FORK_FRONTIER,
        });
    }
    lay(node_words, nodes);
    put_targets(list, node_words, target_words, ends);
    Ok(Built {
        nodes,
        worst_case,
        generation,
    })
}

// Kept: the C interface lends a list, its store and the words of its table apart, here and at the two names below, of
// which C calls the second and Rattle callers the first.
// The table of a list of either form: 10, 12 and 13, 14, then the rest.
#[tactic(auto, using(crate::proofs::Stages::bad_list))]
fn build_list<F: EntryForm>(
    entries: &[F],
    store: &[u8],
    node_words: &mut [u32],
    target_words: &mut [u32],
    generation: u64,
) -> Result<Built, SublistError>
    ensures { built result node_words.new target_words.new
        ≡ build_into (F.entries entries.now) store.now
        node_words.old target_words.old generation }
{
    let list = Listing::new(entries, store)?;
    let mut ends = Ends::new();
    let Ok(nodes) = grow_table(&list, node_words, &mut ends) else {
        return Err(SublistError::NodesFull(nodes_needed(&list)));
    };
    finish(&list, node_words, target_words, &ends, nodes, generation)
}

// The table of a list of entries, all of it: its nodes and targets go into the words lent for them.
pub fn build(
    entries: &[Entry],
    store: &[u8],
    node_words: &mut [u32],
    target_words: &mut [u32],
    generation: u64,
) -> Result<Built, SublistError>
    ensures { built result node_words.new target_words.new
        ≡ build_into entries.now store.now
        node_words.old target_words.old generation }
{
    build_list(entries, store, node_words, target_words, generation)
}

// The same as `build`, of a list lent as plain numbers, all whole threes of it.
pub fn build_from_numbers(
    words: &[usize],
    store: &[u8],
    node_words: &mut [u32],
    target_words: &mut [u32],
    generation: u64,
) -> Result<Built, SublistError>
    ensures { built result node_words.new target_words.new
        ≡ build_into (entries_in words.now) store.now
        node_words.old target_words.old generation }
{
    build_list(words, store, node_words, target_words, generation)
}
