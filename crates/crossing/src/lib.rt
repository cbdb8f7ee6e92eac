// Crossing patterns: a subject that two patterns both match, or that there is none. Not in the original.
// Both patterns are gone through twice: once to learn how long the subject is, then to write it.
#![tactic(auto)]

ghost use Rattle.std.specs.Prelude.{◌≡◌, ◌+◌, [], ◌∷◌, map, ◌≤◌, length};
ghost use Rattle.std.proofs.Math.Option.{some};
ghost use Rattle.std.proofs.lemmas.List.Edits.{sets};
ghost use Rattle.subject_rules.specs.Text.{tokens};
ghost use Rattle.subject_rules.specs.Outputs.{outcome};
ghost use Rattle.subject.specs.Reading.{tokens_from};
ghost use Rattle.crossing_rules.specs.Crossing.{is_wild, plain, meet, followed, common};
ghost use Rattle.crossing_rules.specs.Crossing.{shown_for, crossing_with, crossing};
ghost use Rattle.crossing.specs.Answers.{crossed};
ghost use Rattle.crossing.specs.Writing.{reached, dotted_in};
ghost use Rattle.crossing.specs.declared.CrossingError.TheVariants.{Invalid};

use subject::{MAX_TEXT, SubjectError, Tokens};

// Why two patterns are refused; or that the output is too short, and the length needed.
#[derive(Clone, Copy)]
pub enum CrossingError {
    Invalid(SubjectError),
    OutShort(usize),
}

// Kept: written by hand: a clause that names the error which a `?` makes needs `from_gives`, and no derive writes it.
impl From<SubjectError> for CrossingError {
    ghost from_gives = { λ error result. result ≡ Invalid error };

    fn from(error: SubjectError) -> CrossingError {
        CrossingError::Invalid(error)
    }
}

// A subject as it is put together in an output, a dot behind each token, as far as the output goes. The filler stands
// in positions that are wild in both patterns.
#[derive(Drop)]
struct Writer<'a> {
    filler: &'a [u8],
    out: &'a mut [u8],
    at: usize,
    ghost within: { at ≤ 4097 },
}

impl Writer<'_> {
    ghost use Rattle.crossing.specs.Puts.{Puts};

    // A byte, if the output has a place for it.
    fn write_byte(&mut self, byte: u8)
        requires { self.old.at + 1 ≤ 4097 }
        ensures same_output { self.new.out.ghost_name ≡ self.old.out.ghost_name }
        ensures same_filler { self.new.filler ≡ self.old.filler }
        ensures at { self.new.at ≡ self.old.at + 1 }
        ensures out { self.new.out.now ≡ sets self.old.out.now self.old.at (byte ∷ []) }
    {
        if self.at < self.out.len() {
            self.out[self.at] = byte;
        }
        self.at += 1;
    }

    // Bytes, as far as the output goes. One alone is no copy, which would be a call of `memset` for a known one.
    #[tactic(auto, using(crate::proofs::Putting::written))]
    fn write(&mut self, bytes: &[u8])
        requires { self.old.at + length bytes.now ≤ 4097 }
        ensures same_output { self.new.out.ghost_name ≡ self.old.out.ghost_name }
        ensures same_filler { self.new.filler ≡ self.old.filler }
        ensures at { self.new.at ≡ self.old.at + length bytes.now }
        ensures out { self.new.out.now ≡ sets self.old.out.now self.old.at bytes.now }
    {
        if let [byte] = bytes {
            return self.write_byte(*byte);
        }
        let size = self.out.len();
        let start = self.at.min(size);
        self.at += bytes.len();
        let end = self.at.min(size);
        subject::copy_over(&bytes[..end - start], &mut self.out[start..end]);
    }

    // A token and a dot behind it, if a subject may have so many bytes.
    #[tactic(auto, using(crate::proofs::Putting::putting))]
    fn put(&mut self, token: &[u8]) -> Option<()>
        ensures { Puts (some (token.now ∷ [])) result self.old self.new }
    {
        if MAX_TEXT < self.at + token.len() {
            return None;
        }
        self.write(token);
        self.write_byte(b'.');
        Some(())
    }

    // A pattern's token and a dot behind it, the filler in place of a wildcard.
    fn put_plain(&mut self, token: &[u8]) -> Option<()>
        ensures { Puts (some (plain self.old.filler.now token.now ∷ [])) result self.old self.new }
    {
        if is_wild(token) {
            self.put(self.filler)
        } else {
            self.put(token)
        }
    }

    // What two patterns' tokens, neither of them `>`, have in common, and a dot behind it.
    #[tactic(auto, unfolding(crate::specs::Writing::progress))]
    fn put_common(&mut self, first: &[u8], second: &[u8]) -> Option<()>
        ensures { Puts
            (followed (meet self.old.filler.now first.now second.now) (some []))
            result self.old self.new }
    {
        if subject::is_star(first) {
            return self.put_plain(second);
        }
        if subject::is_star(second) || subject::same_bytes(first, second) {
            return self.put(first);
        }
        None
    }

    // A token of a pattern and those behind it.
    #[tactic(auto, using(crate::proofs::Turns::turns))]
    fn put_rest(&mut self, token: &[u8], behind: Tokens<'_>) -> Option<()>
        ensures { Puts
            (some (map (plain self.old.filler.now)
            (token.now ∷ tokens_from behind.entry.text.now behind.entry.at)))
            result self.old self.new }
    {
        self.put_plain(token)?;
        for token in behind {
            self.put_plain(token)?;
        }
        Some(())
    }

    // The tokens that two patterns have in common.
    #[tactic(auto, using(crate::proofs::Turns::turns), unfolding(crate::specs::Writing::progress))]
    fn put_crossing(&mut self, first: &[u8], second: &[u8]) -> Option<()>
        ensures { Puts
            (common self.old.filler.now (tokens first.now) (tokens second.now))
            result self.old self.new }
    {
        let mut tokens = subject::new(first);
        let mut others = subject::new(second);
        // Kept: a `for` over `tokens.by_ref()` was tried: inside it the proof does not know what the loop left of the
        // reader, which `put_rest` takes.
        while let Some(token) = tokens.next() {
            let other = others.next()?;
            if subject::is_tail(token) {
                return self.put_rest(other, others);
            }
            if subject::is_tail(other) {
                return self.put_rest(token, tokens);
            }
            self.put_common(token, other)?;
        }
        others.is_done().then_some(())
    }
}

// Whether a token is a wildcard.
fn is_wild(token: &[u8]) -> bool
    ensures { result ≡ is_wild token.now }
{
    subject::is_star(token) || subject::is_tail(token)
}

// The length of the subject that two patterns have in common, if there is one. It is put in the output with a dot
// behind it, as far as the output goes.
#[tactic(auto, using(crate::proofs::Showing::all_together))]
fn put_together(first: &[u8], second: &[u8], filler: &[u8], out: &mut [u8]) -> Option<usize>
    ensures { reached result out.new
        ≡ dotted_in (shown_for filler.now first.now second.now) out.old }
{
    let mut writer = Writer { filler, out, at: 0 };
    writer.put_crossing(first, second)?;
    Some(writer.at - 1)
}

// The length of a shortest subject that two patterns both match, `filler` in each position that is wild in both; none
// where there is no such subject. The first is parsed before the second. A refusal, and that there is none, leave the
// output.
#[tactic(auto, using(crate::proofs::Showing::showing), unfolding(crossing_rules::specs::Crossing::crossing_with))]
pub fn crossing_with(
    first: &[u8],
    second: &[u8],
    filler: &[u8],
    out: &mut [u8],
) -> Result<Option<usize>, CrossingError>
    ensures { outcome (crossed result) out.new
        ≡ crossing_with filler.now first.now second.now out.old }
{
    subject::parse(first)?;
    subject::parse(second)?;
    let Some(size) = put_together(first, second, filler, &mut []) else {
        return Ok(None);
    };
    if out.len() < size {
        return Err(CrossingError::OutShort(size));
    }
    put_together(first, second, filler, &mut out[..size]);
    Ok(Some(size))
}

// The same with `x` in those positions.
#[tactic(auto, unfolding(crossing_rules::specs::Crossing::crossing))]
pub fn crossing(first: &[u8], second: &[u8], out: &mut [u8]) -> Result<Option<usize>, CrossingError>
    ensures { outcome (crossed result) out.new
        ≡ crossing first.now second.now out.old }
{
    crossing_with(first, second, b"x", out)
}
