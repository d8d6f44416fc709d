// The totals behind the ends of an option, with what ending there costs: its removal. That goes by the end year alone, so it is added once a year
// and not to each arc that ends there.

ghost use Rattle.std.specs.Prelude.{◌≡◌, ◌+◌, ◌^◌, ◌<◌, set};
ghost use Rattle.choice.specs.Running.{no_total};
ghost use Rattle.streams.specs.Streams.{removal_on};
ghost use Rattle.weighing.specs.Ends.{word_of};
ghost use Rattle.weighing.specs.Ahead.{ahead_of, LooksAhead};

use crate::NONE;

// A total, if there is one, and more.
#[tactic(auto, unfolding(crate::specs::Ahead::ahead_of))]
fn plus(total: u64, more: u64) -> u64
    requires { (total ≡ no_total → ⊥) → total + more < 2 ^ 64 }
    ensures { result ≡ ahead_of total more }
{
    if total == NONE {
        return NONE;
    }
    total + more
}

// Writes the total behind the ends of a year: the word of the year, with the removal of the option whose streams are lent.
pub fn look_ahead(ahead: &mut [u64], words: &[u64], streams: &[u64], year: u64)
    requires { LooksAhead ahead.old words.now streams.now year }
    ensures { ahead.new ≡ set ahead.old year (ahead_of (word_of words.now year) (removal_on streams.now year)) }
{
    let at = year as usize;
    let removal = streams::removal(streams, year);
    ahead[at] = plus(words[at], removal.0);
}
