// The nodes of a table in a lent area of words: what a search for a child and the making of one come to.
// Definitions, theorems and the types of the answers: no code. specs/Words.antt lists a node's words.
#![tactic(auto)]
// What a child is reached by: it is the `*` child, or the literal child with a hash.
#[derive(Clone, Copy)]
pub enum ChildKey {
    Star,
    Literal(u64),
}

// A child by its number; or the word where its number would stand; or an area that makes no sense.
// Kept: three answers, of which Missing gives a place to write to; so it is no Option and no Result.
#[derive(Clone, Copy)]
pub enum Child {
    Node(u32),
    Missing(usize),
    Damaged,
}

// A node, and the node count afterwards.
#[derive(Clone, Copy)]
pub struct Placed {
    pub node: u32,
    pub count: usize,
}

// Why there is no node: no room for a new one; or an area that makes no sense.
#[derive(Clone, Copy)]
pub enum PlaceError {
    Full,
    Broken,
}
