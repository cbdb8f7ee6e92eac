// The load maker: patterns and subjects that are the same on every bench. Not in the original.
// The count of tokens is drawn on a copy of the state, before the output is measured: a refusal gives back the one
// lent.
#![tactic(auto)]

ghost use Rattle.std.specs.Prelude.{◌≡◌, ◌+◌, ◌*◌, ◌≤◌, true, false, length};
ghost use Rattle.std.proofs.lemmas.List.Edits.{sets};
ghost use Rattle.subject_rules.specs.Text.{joined};
ghost use Rattle.load_maker_rules.specs.Xorshift.{draw, draws};
ghost use Rattle.load_maker_rules.specs.Load.{pattern_byte, token_byte, made_tokens, make};
ghost use Rattle.load_maker.specs.Answers.{made_by};

// Why no text is made.
#[derive(Clone, Copy)]
pub enum MakeError {
    ZeroStart,
    OutShort(usize),
}

// The length of the text that was made, or a refusal, and the state afterwards.
#[derive(Clone, Copy)]
pub struct MadeText {
    pub answer: Result<usize, MakeError>,
    pub state: u64,
}

// The state after this one, which is a draw: Marsaglia's xorshift.
#[tactic(auto, unfolding(load_maker_rules::specs::Xorshift::draw))]
pub fn draw(state: u64) -> u64
    ensures { result ≡ draw state }
{
    let a = state ^ (state << 13);
    let b = a ^ (a >> 7);
    b ^ (b << 17)
}

// A pattern's token by its number: 0 is `*`, 1 is `>` in last position and `*` elsewhere, from 2 on letters.
fn pattern_byte(last: bool, number: u64) -> u8
    requires { number ≤ 9 }
    ensures { result ≡ pattern_byte last number }
{
    match number {
        1 if last => b'>',
        0 | 1 => b'*',
        _ => b'a' + (number - 2) as u8,
    }
}

// A token by its draw.
fn token_byte(wild: bool, last: bool, drawn: u64) -> u8
    ensures { result ≡ token_byte wild last drawn }
{
    if wild {
        pattern_byte(last, drawn % 10)
    } else {
        b'a' + (drawn % 8) as u8
    }
}

// So many tokens, drawn one behind another, with a dot between each two; the state afterwards.
// Kept: tried over `out.chunks_mut(2)`: the loop's invariant has no name for what `out` holds by then, and the goal
// stays that `out` has the tokens (`returns`).
#[tactic(auto, using(crate::proofs::Putting::turns))]
fn put_tokens(wild: bool, count: usize, from: u64, out: &mut [u8]) -> u64
    requires { (count ≤ 6)
        × (2 * count ≤ length out.old + 1) }
    ensures { (result ≡ draws count from)
        × (out.new ≡ sets out.old 0 (joined (made_tokens wild count from))) }
{
    let mut state = from;
    for i in 0..count {
        let last = i + 1 == count;
        state = draw(state);
        out[2 * i] = token_byte(wild, last, state);
        if !last {
            out[2 * i + 1] = b'.';
        }
    }
    state
}

// A text is made from a state, and written over the first places of the output.
#[tactic(auto, using(crate::proofs::Stages::stages))]
fn make(wild: bool, state: u64, out: &mut [u8]) -> MadeText
    ensures { made_by result out.new ≡ make wild state out.old }
{
    if state == 0 {
        return MadeText {
            answer: Err(MakeError::ZeroStart),
            state,
        };
    }
    let first = draw(state);
    let count = 1 + (first % 6) as usize;
    let size = 2 * count - 1;
    if out.len() < size {
        return MadeText {
            answer: Err(MakeError::OutShort(size)),
            state,
        };
    }
    let new = put_tokens(wild, count, first, out);
    MadeText {
        answer: Ok(size),
        state: new,
    }
}

// A pattern is made from a state. A refusal leaves the output and gives the state back.
// Kept: C's calls `router_make_pattern` and `router_make_subject` each call one of this and `make_subject`; one
// function with a flag would read no plainer there.
pub fn make_pattern(state: u64, out: &mut [u8]) -> MadeText
    ensures { made_by result out.new ≡ make true state out.old }
{
    make(true, state, out)
}

// A subject, in the same way.
pub fn make_subject(state: u64, out: &mut [u8]) -> MadeText
    ensures { made_by result out.new ≡ make false state out.old }
{
    make(false, state, out)
}
