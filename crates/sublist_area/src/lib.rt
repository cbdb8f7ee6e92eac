// The nodes of a table in a lent area of words: looking up a child, making one.
#![tactic(auto)]

ghost use Rattle.std.specs.Prelude.{◌≡◌, ◌+◌, ◌*◌, ◌/◌, ◌%◌, ◌<◌, ◌≤◌, ◌^◌, [], ◌∷◌, length};
ghost use Rattle.sublist_area_rules.specs.Words.{words_per_node, key_of, hash_is, by_hash, linked, seek, child_of};
ghost use Rattle.sublist_area_rules.specs.Growing.{fresh, hash_of, added, child_or_new, rooted};

use sublist_area_rules::{Child, ChildKey, PlaceError, Placed};

// Kept: nodes stand in an area of words and name one another by number, since C lends the area and there is no heap.
// The words that a node takes.
pub const NODE_WORDS: usize = 16;

// The word of a node with its first literal child.
const LITERAL_CHILD: usize = 2;

// The word of a node with its `*` child.
pub const STAR_CHILD: usize = 3;

// The word where a node's exact targets start.
pub const EXACT_START: usize = 4;

// The word that counts a node's exact targets.
pub const EXACT_COUNT: usize = 5;

// The word where a node's `>` targets start.
pub const TAIL_START: usize = 6;

// The word that counts a node's `>` targets.
pub const TAIL_COUNT: usize = 7;

// The first of the words of a node with its next siblings.
const SIBLINGS: usize = 8;

// The word of a node with its parent.
pub const PARENT: usize = 12;

// The most nodes, that a word can still number them.
const MAX_NODES: usize = u32::MAX as usize;

// How many values a word has.
const WORD: u64 = 4294967296;

// The words of a hash, low word first.
fn halves(hash: u64) -> [u32; 2]
    ensures { result ≡ hash % 2 ^ 32 ∷ hash / 2 ^ 32 ∷ [] }
{
    [(hash % WORD) as u32, (hash / WORD) as u32]
}

// So many nodes, the words of which are there.
#[derive(Clone, Copy)]
struct Nodes<'a> {
    words: &'a [u32],
    count: usize,
    ghost fits: { count ≤ length words.now / words_per_node },
}

impl<'a> Nodes<'a> {
    // Whether node `at` has the hash.
    fn has_hash(&self, at: usize, hash: u64) -> bool
        requires { at < self.now.count }
        ensures { result ≡ hash_is self.now.words.now at hash }
    {
        let [low, high] = halves(hash);
        self.words[at * NODE_WORDS] == low && self.words[at * NODE_WORDS + 1] == high
    }

    // What the number in a link leads to; 0 leads to no node.
    fn linked(&self, link: usize) -> Child
        requires { link < self.now.count * words_per_node }
        ensures { result ≡ linked self.now.words.now self.now.count link }
    {
        let id = self.words[link];
        if id == 0 {
            return Child::Missing(link);
        }
        if self.count <= id as usize {
            return Child::Damaged;
        }
        Child::Node(id)
    }

    // The sibling with the hash, from a link on.
    #[tactic(auto, using(sublist_area_rules::proofs::Turns::at_next), unfolding(sublist_area_rules::specs::Words::seek))]
    fn seek_sibling(&self, start: usize, hash: u64) -> Child
        requires { start < self.now.count * words_per_node }
        ensures { result
            ≡ seek (by_hash self.now.words.now hash) self.now.words.now self.now.count hash self.now.count start }
    {
        let mut link = start;
        let mut rest = hash;
        for _step in 0..self.count {
            let met = self.linked(link);
            let Child::Node(id) = met else {
                return met;
            };
            let at = id as usize;
            if self.has_hash(at, hash) {
                return met;
            }
            link = at * NODE_WORDS + SIBLINGS + (rest % 4) as usize;
            rest /= 4;
        }
        // Kept: with no step left a link to a node is damage too; `linked` would be no plainer, since it would have to
        // be told that there are no nodes.
        if self.words[link] == 0 {
            Child::Missing(link)
        } else {
            Child::Damaged
        }
    }
}

// The child of a node by a key.
#[tactic(auto, using(sublist_area_rules::proofs::Ways::child_says))]
pub fn child(node_words: &[u32], count: usize, node: u32, key: ChildKey) -> Child
    ensures { result ≡ child_of node_words.now count node (key_of key) }
{
    let from = node as usize;
    if node_words.len() / NODE_WORDS < count || count <= from {
        return Child::Damaged;
    }
    let nodes = Nodes {
        words: node_words,
        count,
    };
    match key {
        ChildKey::Literal(hash) => nodes.seek_sibling(from * NODE_WORDS + LITERAL_CHILD, hash),
        ChildKey::Star => nodes.linked(from * NODE_WORDS + STAR_CHILD),
    }
}

// The words of a new node.
fn fresh(hash: u64, parent: u32) -> [u32; NODE_WORDS]
    ensures { result ≡ fresh hash parent }
{
    let mut words = [0; NODE_WORDS];
    words[..2].copy_from_slice(&halves(hash));
    words[PARENT] = parent;
    words
}

// Writes node `count` below a node, and its number into a word.
// Kept: words and count apart, here and in `child_or_new`; a struct that holds the `&mut` would add to each clause that
// it is the same and as long, as in sublist.
#[tactic(auto, using(sublist_area_rules::proofs::Stores::added_by))]
fn add_node(node_words: &mut [u32], count: usize, link: usize, hash: u64, parent: u32)
    requires { (count * words_per_node + words_per_node ≤ length node_words.old)
        × (link < count * words_per_node)
        × (count < 2 ^ 32) }
    ensures { node_words.new ≡ added node_words.old count link hash parent }
{
    let at = count * NODE_WORDS;
    node_words[at..at + NODE_WORDS].copy_from_slice(&fresh(hash, parent));
    node_words[link] = count as u32;
}

// Writes the root.
#[tactic(auto, using(sublist_area_rules::proofs::Stores::rooted_by, sublist_area_rules::proofs::Stores::rooted_short))]
pub fn plant(node_words: &mut [u32]) -> Result<Placed, PlaceError>
    ensures { (result, node_words.new) ≡ rooted node_words.old }
{
    let Some(root) = node_words.first_chunk_mut::<NODE_WORDS>() else {
        return Err(PlaceError::Full);
    };
    *root = fresh(0, 0);
    Ok(Placed { node: 0, count: 1 })
}

// What a new node has for a hash.
fn hash_of(key: ChildKey) -> u64
    ensures { result ≡ hash_of (key_of key) }
{
    match key {
        ChildKey::Star => 0,
        ChildKey::Literal(hash) => hash,
    }
}

// The child of a node by a key, made where it is missing.
#[tactic(auto, using(sublist_area_rules::proofs::Ways::ways), unfolding(sublist_area_rules::specs::Growing::child_or_new))]
pub fn child_or_new(
    node_words: &mut [u32],
    count: usize,
    node: u32,
    key: ChildKey,
) -> Result<Placed, PlaceError>
    ensures { (result, node_words.new) ≡ child_or_new node_words.old count node (key_of key) }
{
    match child(node_words, count, node, key) {
        Child::Node(id) => Ok(Placed { node: id, count }),
        Child::Damaged => Err(PlaceError::Broken),
        Child::Missing(link) => {
            if node_words.len() / NODE_WORDS <= count || MAX_NODES <= count {
                return Err(PlaceError::Full);
            }
            add_node(node_words, count, link, hash_of(key), node);
            Ok(Placed {
                node: count as u32,
                count: count + 1,
            })
        }
    }
}
