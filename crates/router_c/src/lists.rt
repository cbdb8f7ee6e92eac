// Lists of entries, three numbers an entry (start, length, target), with a text store; and the table of a list.
ghost use Rattle.sublist_entries.specs.Numbers.{entries_in, insert_numbers};
ghost use Rattle.sublist_rules.specs.Leaving.{build_into};
ghost use Rattle.router_words.specs.Words.{list_of, Inserts, Builds};

use router_words::CAnswer;
use sublist_entries::ListState;

// A pattern and its target join a list. The answer has the entries and bytes in use afterwards.
pub fn router_insert(
    entries: usize,
    used: usize,
    words: &mut [usize],
    store: &mut [u8],
    pattern: &[u8],
    target: u32,
) -> CAnswer
    ensures { Inserts result words.new store.new
        (insert_numbers (list_of entries used) words.old store.old
        pattern.now target) }
{
    let list = ListState { entries, used };
    sublist_entries::insert_numbers(list, words, store, pattern, target).into()
}

// The table of a list, all its whole entries: node count, worst case and generation, or why not.
pub fn router_build(
    words: &[usize],
    store: &[u8],
    nodes: &mut [u32],
    targets: &mut [u32],
    generation: u64,
) -> CAnswer
    ensures { Builds result nodes.new targets.new
        (build_into (entries_in words.now) store.now
        nodes.old targets.old generation) }
{
    sublist::build_from_numbers(words, store, nodes, targets, generation).into()
}
