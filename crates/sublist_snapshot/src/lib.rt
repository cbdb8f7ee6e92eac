// The snapshot: the table that stands, by its counts and generation, with its words in a lent area.
// A port of IronBus's SublistSnapshot.
#![tactic(auto)]

ghost use Rattle.std.specs.Prelude.{◌≡◌, OnOk, OnErr};
ghost use Rattle.subject_rules.specs.Outputs.{outcome};
ghost use Rattle.sublist_snapshot.specs.Snapshot.{refused_table, copied, make, make_empty, store_in};
ghost use Rattle.sublist_snapshot.specs.Snapshot.{nodes_in, targets_in, stands_in, match_in, match_parsed_in};
ghost use Rattle.sublist_snapshot.specs.Answers.{snapshot_answer, lent_table, made, left_stored};
ghost use Rattle.sublist_snapshot.specs.Copying.{lent, copy_refusal};

use sublist_area::NODE_WORDS;
use sublist_walk::{MatchError, Table};

// Which table an answer came from. A generation is never a tick.
#[derive(Clone, Copy, PartialEq, Eq)]
pub struct Generation(pub u64);

// A table by its counts and its generation: the one that build gave it, or its stamp if it stands in a snapshot. Its
// words are lent beside it.
#[derive(Clone, Copy)]
pub struct Sublist {
    pub nodes: usize,
    pub targets: usize,
    pub generation: Generation,
}

// The standing table's counts and generation, and the generation that the next store stamps.
// Kept: a `Sublist` in place of the first three would save some ten lines here, and each definition and theorem that
// names `s.nodes`, `s.targets` or `s.generation`, at over 100 places, would take one step more.
#[derive(Clone, Copy)]
pub struct Snapshot {
    pub nodes: usize,
    pub targets: usize,
    pub generation: Generation,
    pub next: Generation,
}

// The standing table: its snapshot, and the area that has its words.
#[derive(Clone, Copy)]
pub struct StandingTable<'a> {
    pub snapshot: Snapshot,
    pub area: &'a [u32],
}

// Why a store or a first table is refused.
#[derive(Clone, Copy)]
pub enum StoreError {
    Damaged,
    StoreFull,
}

// A store's answer, the generation that the table was stamped with or why it is refused, and the snapshot afterwards.
#[derive(Clone, Copy)]
pub struct Stored {
    pub snapshot: Snapshot,
    pub answer: Result<Generation, StoreError>,
}

// A list's length, the largest frontier and the standing table's generation.
// Kept: a `TableMatch` in place of the first two would save three lines here, and each reader of `count` or `peak`, in
// four crates and in specs/, would take one step more.
#[derive(Clone, Copy)]
pub struct SnapshotMatch {
    pub count: usize,
    pub peak: usize,
    pub generation: Generation,
}

impl Sublist {
    // The generation that build gave the table, or its stamp.
    pub fn generation(self) -> Generation
        ensures { result ≡ self.generation }
    {
        self.generation
    }

    // The number of its nodes.
    pub fn node_count(self) -> usize
        ensures { result ≡ self.nodes }
    {
        self.nodes
    }

    // The table with the words that are lent beside it.
    fn with_words<'a>(self, node_words: &'a [u32], target_words: &'a [u32]) -> Table<'a>
        ensures { (result.nodes ≡ self.nodes)
            × (result.targets ≡ self.targets)
            × (result.node_words ≡ node_words.entry)
            × (result.target_words ≡ target_words.entry) }
    {
        Table {
            nodes: self.nodes,
            targets: self.targets,
            node_words,
            target_words,
        }
    }
}

impl Snapshot {
    // A snapshot of a first table, which is copied to the area and stamped 0: 19, then 20.
    // Kept: the four fields stand here and in `store`: a method for both takes 13 lines, and saves five in each.
    #[tactic(auto, unfolding(crate::specs::Snapshot::make))]
    pub fn new(
        table: Sublist,
        node_words: &[u32],
        target_words: &[u32],
        area: &mut [u32],
    ) -> Result<Snapshot, StoreError>
        ensures { made result area.new
            ≡ make (lent_table table node_words.now target_words.now) area.old }
    {
        copy_table(&table.with_words(node_words, target_words), area)?;
        let generation = Generation(0);
        Ok(Snapshot {
            nodes: table.nodes,
            targets: table.targets,
            generation,
            next: Generation(1),
        })
    }

    // A snapshot of the table of no entries: the root alone, of generation 0.
    #[tactic(auto, unfolding(crate::specs::Snapshot::make_empty))]
    pub fn empty(area: &mut [u32]) -> Result<Snapshot, StoreError>
        ensures { made result area.new ≡ make_empty area.old }
    {
        let table = Sublist {
            nodes: 1,
            targets: 0,
            generation: Generation(0),
        };
        Snapshot::new(table, &[0; NODE_WORDS], &[], area)
    }

    // The standing table, by its counts and generation.
    pub fn load(self) -> Sublist
        ensures { (result.nodes ≡ self.nodes)
            × (result.targets ≡ self.targets)
            × (result.generation ≡ self.generation) }
    {
        Sublist {
            nodes: self.nodes,
            targets: self.targets,
            generation: self.generation,
        }
    }

    // The standing table's generation.
    pub fn generation(self) -> Generation
        ensures { result ≡ self.generation }
    {
        self.generation
    }

    // A table takes the place of the standing one: it is copied to the area and stamped with the counter.
    // 19, then 20.
    #[tactic(auto, unfolding(crate::specs::Snapshot::store_in))]
    pub fn store(
        self,
        table: Sublist,
        node_words: &[u32],
        target_words: &[u32],
        area: &mut [u32],
    ) -> Stored
        ensures { left_stored result area.new
            ≡ store_in self area.old
            (lent_table table node_words.now target_words.now) }
    {
        match copy_table(&table.with_words(node_words, target_words), area) {
            Err(error) => Stored {
                snapshot: self,
                answer: Err(error),
            },
            Ok(()) => Stored {
                snapshot: Snapshot {
                    nodes: table.nodes,
                    targets: table.targets,
                    generation: self.next,
                    next: Generation(self.next.0.wrapping_add(1)),
                },
                answer: Ok(self.next),
            },
        }
    }
}

impl<'a> StandingTable<'a> {
    // The table with its words in the area, or with what the area has of them.
    fn table(&self) -> Table<'a>
        ensures { (result.nodes ≡ self.now.snapshot.nodes)
            × (result.targets ≡ self.now.snapshot.targets)
            × (result.node_words.now ≡ nodes_in self.now.snapshot.nodes self.now.area.now)
            × (result.target_words.now
            ≡ targets_in self.now.snapshot.nodes self.now.snapshot.targets self.now.area.now) }
    {
        let Snapshot { nodes, targets, .. } = self.snapshot;
        let front = nodes.saturating_mul(NODE_WORDS).min(self.area.len());
        let (node_words, rest) = self.area.split_at(front);
        Table {
            nodes,
            targets,
            node_words,
            target_words: &rest[..targets.min(rest.len())],
        }
    }

    // 19 on the counts: there is a node, and the table is no longer than the area.
    #[tactic(auto, using(crate::proofs::Standing::counts_stand))]
    pub fn stands(&self) -> bool
        ensures { result ≡ stands_in self.now.snapshot self.now.area.now }
    {
        sublist_walk::counts_fit(&self.table())
    }

    // The list of the targets that a subject matches in the table, written over the output's first places:
    // 1 to 9, then 19, then 21.
    #[tactic(auto, using(crate::proofs::Fronts::ways))]
    pub fn match_into(&self, subject: &[u8], out: &mut [u32]) -> Result<SnapshotMatch, MatchError>
        ensures { outcome (snapshot_answer result) out.new
            ≡ match_in self.now.snapshot self.now.area.now subject.now out.old }
    {
        subject::parse_literal(subject)?;
        self.match_parsed(subject, out)
    }

    // The match of a subject that the caller has parsed: 1 for a text that no parse accepts, then 19, then 21.
    #[tactic(auto, using(crate::proofs::Fronts::through_found, crate::proofs::Fronts::through_refused))]
    pub fn match_parsed(&self, subject: &[u8], out: &mut [u32]) -> Result<SnapshotMatch, MatchError>
        ensures { outcome (snapshot_answer result) out.new
            ≡ match_parsed_in self.now.snapshot self.now.area.now subject.now out.old }
    {
        let found = sublist_walk::match_parsed(&self.table(), subject, out)?;
        Ok(SnapshotMatch {
            count: found.count,
            peak: found.peak,
            generation: self.snapshot.generation,
        })
    }
}

// A table is copied to the front of the snapshot's area, node words and then target words: 19, then 20.
fn copy_table(table: &Table<'_>, area: &mut [u32]) -> Result<(), StoreError>
    ensures refusal { copy_refusal result ≡ refused_table (lent table.now) area.old }
    ensures copy { OnOk result (area.new ≡ copied (lent table.now) area.old) }
    ensures same { OnErr result (area.new ≡ area.old) }
{
    if !sublist_walk::counts_fit(table) {
        return Err(StoreError::Damaged);
    }
    let front = table.nodes * NODE_WORDS;
    let end = front + table.targets;
    if area.len() < end {
        return Err(StoreError::StoreFull);
    }
    subject::copy_over(&table.node_words[..front], &mut area[..front]);
    subject::copy_over(&table.target_words[..table.targets], &mut area[front..end]);
    Ok(())
}
