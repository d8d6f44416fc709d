// Maintaining and renovating alike: an option that may also have length 0.

ghost use Rattle.std.specs.Prelude.{◌≡◌};
ghost use Rattle.weighing.specs.Ends.{Walks, word_of, WordsBehind};
ghost use Rattle.front.specs.Front.{best_kept};

use costing::Kept;
use steps::Units;
use tails::Lent;
use weighing::Best;

// The choice of the end of such an option: length 0, which costs nothing, by the total from its start on, then the longer ones by the totals behind
// their ends.
pub fn best_from(behind: u64, ahead: &[u64], lent: &Lent, kept: Kept) -> Best
    requires walks { Walks kept lent.now.discount lent.now.sheet.horizon lent.now.streams.now lent.now.ages.now }
    requires words_behind { WordsBehind kept lent.now.sheet.horizon ahead.now }
    ensures { result ≡ best_kept kept lent.now.sheet.horizon behind (word_of ahead.now) }
{
    let from = kept.from;
    let nothing = Units(0);
    let best = weighing::weigh(true, weighing::NOTHING, nothing, from, behind);
    let horizon = lent.sheet.horizon;
    weighing::best_end(
        ahead,
        lent.streams,
        lent.ages,
        kept,
        lent.discount,
        horizon,
        best,
    )
}
