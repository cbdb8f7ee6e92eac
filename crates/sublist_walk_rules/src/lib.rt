// The walk of a subject over a table: what a match answers and leaves, on any words at all, and what it means that an
// area holds a tree. Definitions, theorems and a type: no code.
#![tactic(auto)]
// Why a walk fails: a frontier would pass its limit, or a number points outside.
#[derive(Clone, Copy)]
pub enum Failure {
    Wide,
    Damaged,
}
