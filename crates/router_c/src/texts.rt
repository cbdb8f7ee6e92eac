// Texts: the grammar, a match of two texts, what two patterns have in common, hashes and tokens.
ghost use Rattle.std.specs.Prelude.{◌≡◌, true, false, length};
ghost use Rattle.subject_rules.specs.Text.{tokens, ends_in_tail};
ghost use Rattle.subject.specs.Reading.{place_in};
ghost use Rattle.subject.specs.Answers.{placed};
ghost use Rattle.subject_rules.specs.Grammar.{grammar};
ghost use Rattle.subject_rules.specs.Matching.{matching};
ghost use Rattle.subject_rules.specs.Fnv.{fnv};
ghost use Rattle.crossing_rules.specs.Crossing.{crossing};
ghost use Rattle.router_words.specs.Words.{Says, Writes, bit};

use router_words::CAnswer;

// A text as a literal subject: its token count, or why it is refused.
pub fn router_parse_literal(text: &[u8]) -> CAnswer
    ensures { Says result (grammar false text.now) }
{
    subject::parse_literal(text).into()
}

// A text as a pattern: its token count, or why it is refused.
pub fn router_parse(text: &[u8]) -> CAnswer
    ensures { Says result (grammar true text.now) }
{
    subject::parse(text).into()
}

// Whether a pattern matches a subject, or why one of the two is refused.
pub fn router_matches(pattern: &[u8], subject: &[u8]) -> CAnswer
    ensures { Says result (matching pattern.now subject.now) }
{
    subject::matches(pattern, subject).into()
}

// A shortest subject that two patterns both match, written over the first places of the output: 1 and its length; or 0.
// Or why a pattern is refused, the first one first, or 21.
pub fn router_crossing(first: &[u8], second: &[u8], out: &mut [u8]) -> CAnswer
    ensures { Writes result out.new
        (crossing first.now second.now out.old) }
{
    crossing::crossing(first, second, out).into()
}

// The hash of a token.
pub fn router_token_hash(token: &[u8]) -> u64
    ensures { result ≡ fnv token.now }
{
    subject::token_hash(token)
}

// The number of tokens of a text.
pub fn router_depth(text: &[u8]) -> u64
    ensures { result ≡ length (tokens text.now) }
{
    subject::depth(text) as u64
}

// Whether the last token of a text is `>`: 1 or 0.
pub fn router_has_tail_wildcard(text: &[u8]) -> u64
    ensures { result ≡ bit (ends_in_tail (tokens text.now)) }
{
    u64::from(subject::has_tail_wildcard(text))
}

// Where token n of a text lies, counted from 0: 1, its first position and the one behind its last; or 0.
pub fn router_nth_token(text: &[u8], n: usize) -> CAnswer
    ensures { Says result (placed (place_in 0 (tokens text.now) n)) }
{
    subject::nth_token(text, n).into()
}
