// The words and the first ends of every year, from the horizon down.

ghost use Rattle.std.specs.Prelude.{◌≡◌, ◌+◌, ◌-◌, ◌%◌, ◌<◌, ◌≤◌, length, set};
ghost use Rattle.sheet.specs.Layout.{year_places};
ghost use Rattle.sheet.specs.Sheet.{replace};
ghost use Rattle.tails.specs.Words.{words_needed, total_of, first_end};
ghost use Rattle.tails.specs.Writing.{AheadHeld, ChosenBehind, Settles, YearWritten, TwoWritten, LastWritten, AllWritten, FillableBy, OptionLent};

use crate::Lent;
use base::Activity;
use sheet::YEARS;
use weighing::Best;
use weighing::ahead::look_ahead;

// Writes what was chosen from a year: its total to the words, its end to the first ends.
fn put(words: &mut [u64], firsts: &mut [u64], year: u64, best: Best)
    requires { (year ≤ 300) × (year < length words.old) × (year < length firsts.old) }
    ensures words { words.new ≡ set words.old year best.total }
    ensures firsts { firsts.new ≡ set firsts.old year best.end }
{
    words[year as usize] = best.total;
    firsts[year as usize] = best.end;
}

// The lists that are written are lent one by one: with a struct of `&mut` each method would have to say that it keeps the references.
impl Lent<'_> {
    // Writes those of a year by the choice of a replacement from it, and the total behind the ends of that year.
    fn settle(
        &self,
        words: &mut [u64],
        firsts: &mut [u64],
        ahead: &mut [u64],
        year: u64,
        best: Best,
    )
        requires settles { Settles self.now.sheet self.now.streams.now words.old firsts.old ahead.old }
        requires year_lt_horizon { (year < self.now.sheet.horizon) × ChosenBehind self.now.sheet year ahead.old best }
        ensures words { YearWritten total_of self.now.sheet year words.old words.new }
        ensures firsts { YearWritten first_end self.now.sheet year firsts.old firsts.new }
        ensures ahead { AheadHeld replace self.now.sheet year ahead.new }
    {
        put(words, firsts, year, best);
        look_ahead(ahead, words, self.streams, year);
    }

    // Writes those of one year, by the totals behind the later years.
    fn one_year(&self, words: &mut [u64], firsts: &mut [u64], ahead: &mut [u64], year: u64)
        requires fillable { FillableBy self.now words.old firsts.old ahead.old }
        requires year_lt_horizon { (year < self.now.sheet.horizon) × AheadHeld replace self.now.sheet (year + 1) ahead.old }
        ensures words { YearWritten total_of self.now.sheet year words.old words.new }
        ensures firsts { YearWritten first_end self.now.sheet year firsts.old firsts.new }
        ensures ahead { AheadHeld replace self.now.sheet year ahead.new }
    {
        let kept = costing::kept_of(&self.sheet, Activity::Replace, year);
        let chosen = weighing::best_end(
            ahead,
            self.streams,
            self.ages,
            kept,
            self.discount,
            self.sheet.horizon,
            weighing::NOTHING,
        );
        self.settle(words, firsts, ahead, year, chosen);
    }

    // Writes those of the horizon, and if it is odd those of the year before too. Answers the year that is reached, which is even.
    fn last_years(&self, words: &mut [u64], firsts: &mut [u64], ahead: &mut [u64]) -> u64
        requires { FillableBy self.now words.old firsts.old ahead.old }
        ensures reached { (result % 2 ≡ 0) × (result ≤ self.now.sheet.horizon) }
        ensures words { LastWritten total_of self.now.sheet result words.old words.new }
        ensures firsts { LastWritten first_end self.now.sheet result firsts.old firsts.new }
        ensures ahead { AheadHeld replace self.now.sheet result ahead.new }
    {
        let horizon = self.sheet.horizon;
        let arrived = Best { total: 0, end: 0 };
        put(words, firsts, horizon, arrived);
        ahead[horizon as usize] = 0;
        if horizon % 2 == 0 {
            return horizon;
        }
        let year = horizon - 1;
        self.one_year(words, firsts, ahead, year);
        year
    }

    // Writes those of the two years before a year that is reached.
    fn two_years(&self, words: &mut [u64], firsts: &mut [u64], ahead: &mut [u64], reached: u64)
        requires fillable { FillableBy self.now words.old firsts.old ahead.old }
        requires le_reached { (2 ≤ reached) × (reached ≤ self.now.sheet.horizon) × AheadHeld replace self.now.sheet reached ahead.old }
        ensures words { TwoWritten total_of self.now.sheet reached words.old words.new }
        ensures firsts { TwoWritten first_end self.now.sheet reached firsts.old firsts.new }
        ensures ahead { AheadHeld replace self.now.sheet (reached - 2) ahead.new }
    {
        let horizon = self.sheet.horizon;
        let start = reached - 1;
        let from = reached - 2;
        let kept = costing::kept_of(&self.sheet, Activity::Replace, from);
        let next = kept.starting(start);
        let years = kept.terms.longest.min(horizon - from);
        let mut earlier = [0u64; 120];
        let mut later = [0u64; 120];
        weighing::arcs::two_starts(
            &mut earlier,
            &mut later,
            self.streams,
            self.ages,
            kept,
            start,
            self.discount,
            horizon,
            years,
        );
        let second = weighing::best_of(ahead, &later, next, horizon, weighing::NOTHING);
        self.settle(words, firsts, ahead, start, second);
        let first = weighing::best_of(ahead, &earlier, kept, horizon, weighing::NOTHING);
        self.settle(words, firsts, ahead, from, first);
    }

    // Writes those of every year, from T down to 0, each once.
    pub(crate) fn fill(&self, words: &mut [u64], firsts: &mut [u64])
        requires lent { OptionLent replace self.now }
        requires places { (words_needed ≤ length words.old) × (year_places ≤ length firsts.old) }
        ensures words { AllWritten total_of self.now.sheet words.old words.new }
        ensures firsts { AllWritten first_end self.now.sheet firsts.old firsts.new }
    {
        let mut ahead = [0u64; YEARS];
        let last = self.last_years(words, firsts, &mut ahead);
        for pair in (1..=last / 2).rev() {
            self.two_years(words, firsts, &mut ahead, 2 * pair);
        }
    }
}
