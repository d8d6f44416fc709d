// The cheapest replacements from every year to the horizon: the words that planning lends, and the first ends that it keeps for itself.
// Nothing here is a public call: `tail_words` serves the planner, which meets what it requires.

#![tactic(auto)]

ghost use Rattle.std.specs.Prelude.{◌≡◌, ◌≤◌, length};
ghost use Rattle.sheet.specs.Layout.{year_places};
ghost use Rattle.sheet.specs.Sheet.{PlanningSheet};
ghost use Rattle.sheet.specs.Parsed.{parsed};
ghost use Rattle.checking.specs.Fit.{SheetFits};
ghost use Rattle.tails.specs.Words.{words_needed, total_of, first_end};
ghost use Rattle.tails.specs.Cheapest.{CheapestWords};
ghost use Rattle.tails.specs.Writing.{AllWritten};

use base::Activity;
use division::Divisor;
use sheet::Sheet;

mod words;

// What the choices of one option of a sheet go by: the sheet with its divisor, and what is lent for the option, its streams and the ages of its
// overhauls.
#[derive(Clone, Copy)]
pub struct Lent<'a> {
    pub sheet: Sheet,
    pub discount: Divisor,
    pub streams: &'a [u64],
    pub ages: &'a [u64; 8],
}

// Planning wants this many words.
pub const WORDS: usize = 301;

// Writes the least total of replacements from each year to T, and the end of the first of them.
pub fn tail_words(words: &mut [u64], firsts: &mut [u64], sheet: Sheet)
    requires { SheetFits sheet × (words_needed ≤ length words.old) × (year_places ≤ length firsts.old) }
    ensures words { AllWritten total_of sheet words.old words.new }
    ensures firsts { AllWritten first_end sheet firsts.old firsts.new }
    ensures cheapest { (p : PlanningSheet) → sheet ≡ parsed p → CheapestWords p words.old words.new }
{
    let discount = Divisor::of(sheet.discount);
    let mut streams = [0u64; streams::PLACES];
    let ages = streams::lending::lend(&mut streams, sheet, discount, Activity::Replace);
    let lent = Lent {
        sheet,
        discount,
        streams: &streams,
        ages: &ages,
    };
    lent.fill(words, firsts);
}
