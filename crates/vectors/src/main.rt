// Runs texts at the limits of the grammar, lists at the limit of a table's worst case, the published vectors of 64-bit
// FNV-1a, draws of xorshift and texts made by them, and says of each what came out and whether that is right. The
// vectors are those of the FNV reference code by Fowler, Noll and Vo. The draws are the first from Marsaglia's own
// start; they and the texts come from a separate program.
#![tactic(auto)]

use router_c::{
    CAnswer, CMadeText, router_build, router_draw, router_insert, router_make_pattern,
    router_make_subject, router_parse as parse, router_parse_literal as parse_literal,
    router_token_hash,
};
use std::io;

// ---- What is said.

fn verdict(is_right: bool) -> &'static str {
    if is_right { "right" } else { "WRONG" }
}

// One line for an answer: its number and its values.
// Kept: the right answer's three numbers stand apart: with a CAnswer in their place most calls take six lines, not one.
fn row(
    rt: &impl Print,
    name: &str,
    got: CAnswer,
    number: u64,
    first: u64,
    second: u64,
) -> io::Result<()> {
    let right = CAnswer::new(number, &[first, second]);
    let said = verdict(got == right);
    println!(rt;
        "{name}: {} {} {}, {said}",
        got.number, got.first, got.second
    )
}

// One line for a hash.
fn hash_row(rt: &impl Print, text: &str, right: u64) -> io::Result<()> {
    let got = router_token_hash(text.as_bytes());
    let said = verdict(got == right);
    println!(rt; "hash of \"{text}\": {got:016x}, {said}")
}

// One line for a draw; the state behind it.
fn draw_row(rt: &impl Print, state: u64, right: u64) -> io::Result<u64> {
    let got = router_draw(state);
    let said = verdict(got == right);
    println!(rt; "draw: {got}, {said}")?;
    Ok(got)
}

// One line for a text that was made, as long as the output.
fn made_row(
    rt: &impl Print,
    name: &str,
    out: &[u8],
    got: CMadeText,
    right: CMadeText,
) -> io::Result<()> {
    let said = verdict(got.value == right.value && got.state == right.state);
    print!(rt; "{name}: ")?;
    rt.write_all(out)?;
    println!(rt; " {} {} {}, {said}", got.number, got.value, got.state)
}

// ---- Texts at the limits of the grammar.

fn depths(rt: &impl Print) -> io::Result<()> {
    let most = b"a.a.a.a.a.a.a.a.a.a.a.a.a.a.a.a.a.a.a.a.a.a.a.a.a.a.a.a.a.a.a.a";
    row(rt, "32 tokens, a subject", parse_literal(most), 0, 32, 0)?;
    row(rt, "32 tokens, a pattern", parse(most), 0, 32, 0)?;
    let deep = b"a.a.a.a.a.a.a.a.a.a.a.a.a.a.a.a.a.a.a.a.a.a.a.a.a.a.a.a.a.a.a.a.a";
    row(rt, "33 tokens, a subject", parse_literal(deep), 5, 33, 0)?;
    row(rt, "33 tokens, a pattern", parse(deep), 5, 33, 0)?;
    let tail = b"a.a.a.a.a.a.a.a.a.a.a.a.a.a.a.a.a.a.a.a.a.a.a.a.a.a.a.a.a.a.a.>.a";
    row(rt, "> as 32nd of 33, a pattern", parse(tail), 4, 31, 0)
}

fn characters(rt: &impl Print) -> io::Result<()> {
    row(rt, "bytes 61 C0 80", parse_literal(b"a\xc0\x80"), 2, 1, 0)?;
    row(rt, "bytes C2 80", parse_literal(b"\xc2\x80"), 0, 1, 0)?;
    row(rt, "byte 7F", parse_literal(b"\x7f"), 8, 0x7f, 0)
}

// ---- Lists at the limit of a table's worst case: all runs of ten tokens out of `a` and `*`, and two patterns more.

const RUN_BYTES: usize = 19;

const RUNS: usize = 1024;

const RUN_NUMBERS: usize = RUNS * 3;

const ENTRIES: usize = RUNS + 2;

const ENTRY_NUMBERS: usize = ENTRIES * 3;

const STORE_BYTES: usize = RUNS * RUN_BYTES + 42;

const NODE_WORDS: usize = 2049 * 16;

// A list in areas that hold all of it, and the areas of its table.
// Kept: the program `replay` has such a list too; programs share only libraries, and one more for it is no plainer.
#[derive(Drop)]
struct List {
    entries: usize,
    used: usize,
    words: [usize; ENTRY_NUMBERS],
    store: [u8; STORE_BYTES],
    nodes: [u32; NODE_WORDS],
    targets: [u32; ENTRIES],
}

impl List {
    fn new() -> List {
        List {
            entries: 0,
            used: 0,
            words: [0; ENTRY_NUMBERS],
            store: [0; STORE_BYTES],
            nodes: [0; NODE_WORDS],
            targets: [0; ENTRIES],
        }
    }

    // The list is then what the answer says of it.
    fn insert(&mut self, pattern: &[u8], target: u32) -> CAnswer {
        let done = router_insert(
            self.entries,
            self.used,
            &mut self.words,
            &mut self.store,
            pattern,
            target,
        );
        self.entries = done.first as usize;
        self.used = done.second as usize;
        done
    }

    // Inserts all runs, each with its number as target. The last answer.
    fn insert_runs(&mut self) -> CAnswer {
        let mut last = self.insert(&run(0), 0);
        for number in 1..RUNS {
            last = self.insert(&run(number), number as u32);
        }
        last
    }

    // The table of the first so many numbers.
    fn build(&mut self, numbers: usize) -> CAnswer {
        router_build(
            &self.words[..numbers.min(ENTRY_NUMBERS)],
            &self.store,
            &mut self.nodes,
            &mut self.targets,
            0,
        )
    }
}

// The run of ten tokens out of `a` and `*` whose stars are the bits of a number.
fn run(number: usize) -> [u8; RUN_BYTES] {
    let mut run = [b'.'; RUN_BYTES];
    for (i, token) in run.iter_mut().step_by(2).enumerate() {
        let is_star = (number >> i) % 2 == 1;
        *token = if is_star { b'*' } else { b'a' };
    }
    run
}

// The runs alone are accepted; with the all-star run followed by `.a` and by `.*` their table is refused.
fn runs(rt: &impl Print) -> io::Result<()> {
    let mut list = List::new();
    row(
        rt,
        "the 1,024 runs of ten tokens, inserted",
        list.insert_runs(),
        0,
        1024,
        19456,
    )?;
    row(
        rt,
        "their table, nodes and worst case",
        list.build(RUN_NUMBERS),
        0,
        2047,
        1024,
    )?;
    list.insert(b"*.*.*.*.*.*.*.*.*.*.a", 1024);
    let both = list.insert(b"*.*.*.*.*.*.*.*.*.*.*", 1025);
    row(
        rt,
        "the all-star run with .a and with .*, inserted",
        both,
        0,
        1026,
        19498,
    )?;
    row(
        rt,
        "the table with these, worst case and limit",
        list.build(ENTRY_NUMBERS),
        16,
        1025,
        1024,
    )
}

// ---- Hashes.

const HASHES: [(&str, u64); 17] = [
    ("", 0xcbf29ce484222325),
    ("a", 0xaf63dc4c8601ec8c),
    ("b", 0xaf63df4c8601f1a5),
    ("c", 0xaf63de4c8601eff2),
    ("d", 0xaf63d94c8601e773),
    ("e", 0xaf63d84c8601e5c0),
    ("f", 0xaf63db4c8601ead9),
    ("fo", 0x08985907b541d342),
    ("foo", 0xdcb27518fed9d577),
    ("foob", 0xdd120e790c2512af),
    ("fooba", 0xcac165afa2fef40a),
    ("foobar", 0x85944171f73967e8),
    ("ch", 0x08a25607b54a22ae),
    ("cho", 0xf5faf0190cf90df3),
    ("chon", 0xf27397910b3221c7),
    ("chong", 0x2c8c2b76062f22e0),
    ("chongo", 0xe150688c8217b8fd),
];

fn hashes(rt: &impl Print) -> io::Result<()> {
    for (text, right) in HASHES {
        hash_row(rt, text, right)?;
    }
    Ok(())
}

// ---- Draws, from Marsaglia's own start.

const START: u64 = 88172645463325252;

const DRAWS: [u64; 3] = [
    8748534153485358512,
    3040900993826735515,
    3453997556048239312,
];

fn draws(rt: &impl Print) -> io::Result<()> {
    let mut state = START;
    for right in DRAWS {
        state = draw_row(rt, state, right)?;
    }
    Ok(())
}

// ---- Texts that are made, one behind another from the start 1: a pattern's and a subject's lengths are the same, and
// so are the states behind them.

const MADE: [(u64, u64); 6] = [
    (7, 9659130143999365733),
    (3, 14279964170112293133),
    (7, 5632491372296299238),
    (3, 14960181732260564859),
    (11, 2696366417989762466),
    (3, 17489430009591986844),
];

// The longest text that is made.
const MADE_TEXT: usize = 11;

fn made(number: u64, value: u64, state: u64) -> CMadeText {
    CMadeText {
        number,
        value,
        state,
    }
}

fn made_rows<M: Fn(u64, &mut [u8]) -> CMadeText>(
    rt: &impl Print,
    name: &str,
    make: &M,
) -> io::Result<()>
    requires { M.IsAlwaysCallable make.now }
{
    let mut state = 1;
    for (length, right) in MADE {
        let mut out = [b'-'; MADE_TEXT];
        let got = make(state, &mut out);
        made_row(rt, name, &out, got, made(0, length, right))?;
        state = got.state;
    }
    Ok(())
}

// A start of 0, and an output that is one byte short: the output and the state are left.
fn refused_makings(rt: &impl Print) -> io::Result<()> {
    let mut short = [b'-'; 6];
    let zero = router_make_pattern(0, &mut short);
    made_row(rt, "from the start 0", &short, zero, made(28, 0, 0))?;
    let one_less = router_make_subject(1, &mut short);
    made_row(rt, "into 6 bytes", &short, one_less, made(21, 7, 1))
}

fn main(rt: HostRuntime) -> io::Result<()> {
    depths(&rt)?;
    characters(&rt)?;
    runs(&rt)?;
    hashes(&rt)?;
    draws(&rt)?;
    made_rows(
        &rt,
        "pattern made",
        &|state, out: &mut [u8]| router_make_pattern(state, out),
    )?;
    made_rows(
        &rt,
        "subject made",
        &|state, out: &mut [u8]| router_make_subject(state, out),
    )?;
    refused_makings(&rt)
}
