// Lists of entries, three numbers an entry (start, length, target), with a text store; and the table of a list.
ghost use Rattle.sublist_entries.specs.Numbers.{entries_in, insert_numbers};
ghost use Rattle.sublist_rules.specs.Leaving.{build_into};
ghost use Rattle.router_words.specs.Words.{list_of, Inserts, Builds};

use router_c::CAnswer;

// A pattern and its target join a list. The answer has the entries and bytes in use afterwards.
#[unsafe(no_mangle)]
pub extern "C" fn router_insert(
    entries: usize,
    used: usize,
    words: &mut [usize],
    store: &mut [u8],
    pattern: &[u8],
    target: u32,
) -> CAnswer
    ensures { Inserts result words.new store.new
        (insert_numbers (list_of entries used) words.old store.old
        pattern.now target) }
{
    router_c::router_insert(entries, used, words, store, pattern, target)
}

// The table of a list, all its whole entries: node count, worst case and generation, or why not.
#[unsafe(no_mangle)]
pub extern "C" fn router_build(
    words: &[usize],
    store: &[u8],
    nodes: &mut [u32],
    targets: &mut [u32],
    generation: u64,
) -> CAnswer
    ensures { Builds result nodes.new targets.new
        (build_into (entries_in words.now) store.now
        nodes.old targets.old generation) }
{
    router_c::router_build(words, store, nodes, targets, generation)
}
