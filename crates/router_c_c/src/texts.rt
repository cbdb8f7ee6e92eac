// Texts: the grammar, a match of two texts, what two patterns have in common, hashes and tokens.
ghost use Rattle.std.specs.Prelude.{◌≡◌, true, false, length};
ghost use Rattle.subject_rules.specs.Text.{tokens, ends_in_tail};
ghost use Rattle.subject.specs.Reading.{place_in};
ghost use Rattle.subject.specs.Answers.{placed};
ghost use Rattle.subject_rules.specs.Grammar.{grammar};
ghost use Rattle.subject_rules.specs.Matching.{matching};
ghost use Rattle.subject_rules.specs.Fnv.{fnv};
ghost use Rattle.crossing_rules.specs.Crossing.{crossing};
ghost use Rattle.router_words.specs.Words.{Says, Writes, bit};

use router_c::CAnswer;

// A text as a literal subject: its token count, or why it is refused.
#[unsafe(no_mangle)]
pub extern "C" fn router_parse_literal(text: &[u8]) -> CAnswer
    ensures { Says result (grammar false text.now) }
{
    router_c::router_parse_literal(text)
}

// A text as a pattern: its token count, or why it is refused.
#[unsafe(no_mangle)]
pub extern "C" fn router_parse(text: &[u8]) -> CAnswer
    ensures { Says result (grammar true text.now) }
{
    router_c::router_parse(text)
}

// Whether a pattern matches a subject, or why one of the two is refused.
#[unsafe(no_mangle)]
pub extern "C" fn router_matches(pattern: &[u8], subject: &[u8]) -> CAnswer
    ensures { Says result (matching pattern.now subject.now) }
{
    router_c::router_matches(pattern, subject)
}

// A shortest subject that two patterns both match, written over the first places of the output: 1 and its length; or 0.
// Or why a pattern is refused, the first one first, or 21.
#[unsafe(no_mangle)]
pub extern "C" fn router_crossing(first: &[u8], second: &[u8], out: &mut [u8]) -> CAnswer
    ensures { Writes result out.new
        (crossing first.now second.now out.old) }
{
    router_c::router_crossing(first, second, out)
}

// The hash of a token.
#[unsafe(no_mangle)]
pub extern "C" fn router_token_hash(token: &[u8]) -> u64
    ensures { result ≡ fnv token.now }
{
    router_c::router_token_hash(token)
}

// The number of tokens of a text.
#[unsafe(no_mangle)]
pub extern "C" fn router_depth(text: &[u8]) -> u64
    ensures { result ≡ length (tokens text.now) }
{
    router_c::router_depth(text)
}

// Whether the last token of a text is `>`: 1 or 0.
#[unsafe(no_mangle)]
pub extern "C" fn router_has_tail_wildcard(text: &[u8]) -> u64
    ensures { result ≡ bit (ends_in_tail (tokens text.now)) }
{
    router_c::router_has_tail_wildcard(text)
}

// Where token n of a text lies, counted from 0: 1, its first position and the one behind its last; or 0.
#[unsafe(no_mangle)]
pub extern "C" fn router_nth_token(text: &[u8], n: usize) -> CAnswer
    ensures { Says result (placed (place_in 0 (tokens text.now) n)) }
{
    router_c::router_nth_token(text, n)
}
