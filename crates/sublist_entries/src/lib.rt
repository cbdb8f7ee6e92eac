// The list of entries: patterns by their places in a lent text store, with their targets.
// A port of IronBus's SublistBuilder, its `insert`.
// An entry is a record, or three plain numbers: start, length, target.
#![tactic(auto)]

ghost use Rattle.std.specs.Prelude.{◌≡◌, ◌<◌, ◌≤◌, List, ℕ, length, set, MatchOption};
ghost use Rattle.sublist_tree.specs.Lists.{put};
ghost use Rattle.sublist_entries.specs.Entries.{entry_at, with_word};
ghost use Rattle.sublist_entries.specs.Inserting.{insert_says, appended, after_answer, insert_by, insert_into};
ghost use Rattle.sublist_entries.specs.Answers.{insert_answer, inserted};
ghost use Rattle.sublist_entries.specs.Numbers.{entries_in, put_entry, insert_numbers};

use subject::SubjectError;

// The most entries that a list may have.
pub const MAX_ENTRIES: usize = 2048;

// Kept: C lends a list as plain numbers, and both forms have one trait below.
// The plain numbers that an entry takes.
pub const ENTRY_NUMBERS: usize = 3;

// How many values a target has: it is a word of 32 bits.
const TARGETS: usize = 4294967296;

// A pattern's place in the text store, and its target.
#[derive(Clone, Copy)]
pub struct Entry {
    pub start: usize,
    pub length: usize,
    pub target: u32,
}

// How many entries of a lent list and how many bytes of its text store are in use.
// Kept: the counts stand beside the lent list and store, since C lends these apart and gives the counts by value.
#[derive(Clone, Copy)]
pub struct ListState {
    pub entries: usize,
    pub used: usize,
}

// Why an insert is refused: 01's numbers 1 to 9, 10 and 11, in order.
#[derive(Clone, Copy)]
pub enum InsertError {
    Invalid(SubjectError),
    EntriesFull,
    TextFull,
}

// Kept: by hand, as in crossing: a clause names this error, so it needs `from_gives`.
impl From<SubjectError> for InsertError {
    ghost use Rattle.std.specs.Prelude.{◌≡◌};
    ghost use Rattle.sublist_entries.specs.declared.InsertError.TheVariants.{Invalid};

    ghost from_gives = { λ e r. r ≡ Invalid e };

    fn from(e: SubjectError) -> InsertError {
        InsertError::Invalid(e)
    }
}

// What a lent list of entries is made of: records, or plain numbers, three an entry.
pub trait EntryForm: Copy {
    ghost use Rattle.sublist_entries.specs.declared.Entry.{Entry};

    // the entries that a list holds
    ghost entries: { List Self → List Entry };

    // the list with an entry put at a place
    ghost with_entry: { List Self → ℕ → Entry → List Self };

    // How many entries a list holds.
    fn count(list: &[Self]) -> usize
        ensures { result ≡ length (entries list.now) };

    // The entry at a place, its target as a word; none past the last.
    fn entry(list: &[Self], i: usize) -> Option<Entry>
        ensures { MatchOption result (length (entries list.now) ≤ i)
            (λ e. (i < length (entries list.now)) × (with_word e ≡ with_word (entry_at (entries list.now) i))) };

    // An entry is put at a place; where the list has no such place, nothing is.
    fn put(list: &mut [Self], i: usize, e: Entry)
        ensures { list.new ≡ with_entry list.old i e };
}

impl EntryForm for Entry {
    ghost entries = { λ es. es };

    ghost with_entry = { set };

    fn count(list: &[Entry]) -> usize {
        list.len()
    }

    fn entry(list: &[Entry], i: usize) -> Option<Entry> {
        list.get(i).copied()
    }

    fn put(list: &mut [Entry], i: usize, e: Entry) {
        // Kept: a proof knows no more of the list after `get_mut` than its length, so the equation with `with_entry`
        // stays open.
        if i < list.len() {
            list[i] = e;
        }
    }
}

impl EntryForm for usize {
    ghost entries = { entries_in };

    ghost with_entry = { put_entry };

    #[tactic(auto, using(crate::proofs::Numbered::in_length))]
    fn count(list: &[usize]) -> usize {
        list.len() / ENTRY_NUMBERS
    }

    #[tactic(auto, using(crate::proofs::Numbered::in_length, crate::proofs::Numbered::three_read))]
    fn entry(list: &[usize], i: usize) -> Option<Entry> {
        let (threes, _) = list.as_chunks::<ENTRY_NUMBERS>();
        let [start, length, target] = *threes.get(i)?;
        Some(Entry {
            start,
            length,
            target: (target % TARGETS) as u32,
        })
    }

    fn put(list: &mut [usize], i: usize, e: Entry) {
        put_entry(list, i, e);
    }
}

// An entry's numbers are put where those of entry i belong: start, length, target.
// Where the words have no such place, nothing is.
#[tactic(auto, using(crate::proofs::Numbered::entry_put), unfolding(crate::specs::Numbers::put_entry))]
pub fn put_entry(words: &mut [usize], i: usize, e: Entry)
    ensures { words.new ≡ put_entry words.old i e }
{
    if words.len() / ENTRY_NUMBERS <= i {
        return;
    }
    let at = ENTRY_NUMBERS * i;
    words[at..at + ENTRY_NUMBERS].copy_from_slice(&[e.start, e.length, e.target as usize]);
}

// Rules 1 to 9, then 10 and 11, for a list of so many places; an accepted pattern's text goes into the store.
#[tactic(auto, using(crate::proofs::Deciding::insert_ways))]
fn place_text(
    list: ListState,
    places: usize,
    store: &mut [u8],
    pattern: &[u8],
) -> Result<ListState, InsertError>
    ensures says { insert_answer result ≡ insert_says list places (length store.old) pattern.now }
    ensures stored { store.new
        ≡ after_answer (insert_answer result) (put store.old list.used pattern.now) store.old }
{
    subject::parse(pattern)?;
    if places.min(MAX_ENTRIES) <= list.entries {
        return Err(InsertError::EntriesFull);
    }
    if store.len().saturating_sub(list.used) < pattern.len() {
        return Err(InsertError::TextFull);
    }
    let used = list.used + pattern.len();
    subject::copy_over(pattern, &mut store[list.used..used]);
    Ok(ListState {
        entries: list.entries + 1,
        used,
    })
}

// A pattern's text is appended to the store, and its entry to a list of either form. A refusal changes neither.
// Kept: the C interface lends a store, a pattern and a target apart, here and at the two names below, of which C calls
// the second and Rattle callers the first.
fn insert_entry<F: EntryForm>(
    list: ListState,
    entries: &mut [F],
    store: &mut [u8],
    pattern: &[u8],
    target: u32,
) -> Result<ListState, InsertError>
    ensures { inserted result entries.new store.new
        ≡ insert_by (insert_says list (length (F.entries entries.old)) (length store.old) pattern.now)
        (F.with_entry entries.old list.entries (appended list pattern.now target)) entries.old
        (put store.old list.used pattern.now) store.old }
{
    let after = place_text(list, F::count(entries), store, pattern)?;
    let entry = Entry {
        start: list.used,
        length: pattern.len(),
        target,
    };
    F::put(entries, list.entries, entry);
    Ok(after)
}

// A pattern's text is appended to the store, and its entry to the list. A refusal changes neither.
#[tactic(auto, unfolding(crate::specs::Inserting::insert_into))]
pub fn insert(
    list: ListState,
    entries: &mut [Entry],
    store: &mut [u8],
    pattern: &[u8],
    target: u32,
) -> Result<ListState, InsertError>
    ensures { inserted result entries.new store.new
        ≡ insert_into list entries.old store.old pattern.now target }
{
    insert_entry(list, entries, store, pattern, target)
}

// The same as `insert`, on a list lent as plain numbers.
#[tactic(auto, using(crate::proofs::Numbered::in_length), unfolding(crate::specs::Numbers::insert_numbers))]
pub fn insert_numbers(
    list: ListState,
    words: &mut [usize],
    store: &mut [u8],
    pattern: &[u8],
    target: u32,
) -> Result<ListState, InsertError>
    ensures { inserted result words.new store.new
        ≡ insert_numbers list words.old store.old pattern.now target }
{
    insert_entry(list, words, store, pattern, target)
}
