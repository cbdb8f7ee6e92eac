// The verdict on the targets found for a subject. A port of IronBus's binding.rs.
#![tactic(auto)]

ghost use Rattle.std.specs.Prelude.{◌≡◌};
ghost use Rattle.resolve_cache_rules.specs.Cache.{handed};
ghost use Rattle.resolve_cache.specs.Answers.{resolve_answer};
ghost use Rattle.resolve_cache_rules.specs.Answers.{lent};
ghost use Rattle.binding.specs.Verdict.{single_home, routed, is_routed, judge_handed, resolve_single_home};
ghost use Rattle.binding.specs.Verdict.{resolve_single_home_cached};
ghost use Rattle.binding.specs.Answers.{cached_answer, homed, cached_homed};

use resolve_cache::ResolveError;
use resolve_cache_rules::{Answered, ResolveCache};
use sublist_snapshot::{Generation, StandingTable};
use sublist_walk::MatchError;

// Exactly one target, none, or several with their number.
#[derive(Clone, Copy)]
pub enum Resolution {
    Routed(u32),
    NoStream,
    Ambiguous { matched: usize },
}

// A verdict by a match, with the largest frontier and the standing table's generation.
#[derive(Clone, Copy)]
pub struct SingleHome {
    pub resolution: Resolution,
    pub peak: usize,
    pub generation: Generation,
}

impl Resolution {
    // The target, if there is exactly one.
    pub fn routed(self) -> Option<u32>
        ensures { result ≡ routed self }
    {
        match self {
            Resolution::Routed(target) => Some(target),
            _ => None,
        }
    }

    // Whether there is exactly one target.
    pub fn is_routed(self) -> bool
        ensures { result ≡ is_routed self }
    {
        matches!(self, Resolution::Routed(_))
    }
}

// The verdict on a list: no target, one, or several.
pub fn single_home(matched: &[u32]) -> Resolution
    ensures { result ≡ single_home matched.now }
{
    match matched {
        [] => Resolution::NoStream,
        [target] => Resolution::Routed(*target),
        _ => Resolution::Ambiguous {
            matched: matched.len(),
        },
    }
}

// The verdict on the list that a match through the snapshot writes over the first places of the output: 1 to 9, then
// 19, then 21.
#[tactic(auto, using(crate::proofs::Judging::match_down, crate::proofs::Judging::match_judged))]
pub fn resolve_single_home(
    standing: &StandingTable<'_>,
    subject: &[u8],
    out: &mut [u32],
) -> Result<SingleHome, MatchError>
    ensures { homed result out.new
        ≡ resolve_single_home standing.now.snapshot standing.now.area.now subject.now out.old }
{
    let found = standing.match_into(subject, out)?;
    Ok(SingleHome {
        resolution: single_home(&out[..found.count]),
        peak: found.peak,
        generation: found.generation,
    })
}

// The verdict on the list that a resolve hands back: 1 to 9, then 17, 18, 19 and 21.
// Kept: a cache's three lists are three parameters, since the C interface lends them apart, as at `resolve`.
pub fn resolve_single_home_cached(
    cache: ResolveCache,
    stamps: &mut [u64],
    keys: &mut [u8],
    kept: &mut [u32],
    standing: &StandingTable<'_>,
    subject: &[u8],
    out: &mut [u32],
) -> Answered<Result<Resolution, ResolveError>>
    ensures { cached_homed result (lent stamps.new keys.new kept.new) out.new
        ≡ resolve_single_home_cached cache (lent stamps.old keys.old kept.old)
        standing.now.snapshot standing.now.area.now subject.now out.old }
{
    let resolved = resolve_cache::resolve(cache, stamps, keys, kept, standing, subject, out);
    let list = resolve_cache::list(resolved.answer, kept, out);
    Answered {
        cache: resolved.cache,
        answer: resolved.answer.map(|_| single_home(list)),
    }
}
