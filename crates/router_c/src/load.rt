// Texts made for a bench: patterns and subjects drawn from a state.
ghost use Rattle.std.specs.Prelude.{◌≡◌, true, false};
ghost use Rattle.load_maker_rules.specs.Xorshift.{draw};
ghost use Rattle.load_maker_rules.specs.Load.{make};
ghost use Rattle.router_words.specs.Words.{MakesText};

use router_words::CMadeText;

// One draw: the state after this one.
pub fn router_draw(state: u64) -> u64
    ensures { result ≡ draw state }
{
    load_maker::draw(state)
}

// A pattern is made from a state and written over the first places of the output: its length and the new state.
// Or 28, or 21 with the length needed, and the state as lent.
pub fn router_make_pattern(state: u64, out: &mut [u8]) -> CMadeText
    ensures { MakesText result out.new (make true state out.old) }
{
    load_maker::make_pattern(state, out).into()
}

// A subject, in the same way.
pub fn router_make_subject(state: u64, out: &mut [u8]) -> CMadeText
    ensures { MakesText result out.new (make false state out.old) }
{
    load_maker::make_subject(state, out).into()
}
