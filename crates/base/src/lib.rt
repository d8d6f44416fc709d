// What the crates above stand on: what a call answers, and numbers in bytes.
// Nothing here is a public call: the functions serve the crates above, which meet what they require.

#![tactic(auto)]

ghost use Rattle.std.specs.Prelude.{◌≡◌};
ghost use Rattle.base.specs.Answer.{accepted, refused};
ghost use Rattle.base.specs.Outcome.{place, number_of, option_of, answer_of, check_answer, Names};

use std::fmt;

pub mod numbers;

// What a chain is made of, in the order of a sheet's options.
#[derive(Clone, Copy, Debug, PartialEq, Eq)]
pub enum Activity {
    Maintain,
    Renovate,
    Replace,
}

pub const ACTIVITIES: [Activity; 3] = [Activity::Maintain, Activity::Renovate, Activity::Replace];

// Why a call is refused: the rows of the refusal table, in its order. A row that is asked of each option names the option.
#[derive(Clone, Copy, Debug, PartialEq, Eq)]
pub enum Refusal {
    Length,
    Mark,
    Horizon,
    Rate,
    Lives(Activity),
    Amount(Activity),
    Inflation(Activity),
    Ageing(Activity),
    Overhauls(Activity),
    Words,
    NoChain,
    PlanLength,
    NotOffered,
    NotAChain,
    GeneralInflation,
    ListLength,
}

// What is printed and packed of an outcome. Number 0 and option 3: accepted, with the total. Any other number: refused, with total 0.
#[derive(Clone, Copy)]
pub struct Answer {
    pub total: u64,
    pub number: u8,
    pub option: u8,
}

impl Activity {
    // Its place among the options of a sheet.
    pub fn place(self) -> usize
        ensures { result ≡ place self }
    {
        self as usize
    }
}

impl From<Activity> for u64 {
    ghost from_gives = { λ activity option. option ≡ place activity };

    fn from(activity: Activity) -> u64 {
        activity as u64
    }
}

// The activity with an option's number: an arc of another option is not offered.
impl TryFrom<u64> for Activity {
    type Error = Refusal;

    ghost try_from_gives = { Names };

    fn try_from(option: u64) -> Result<Activity, Refusal> {
        match option {
            0 => Ok(Activity::Maintain),
            1 => Ok(Activity::Renovate),
            2 => Ok(Activity::Replace),
            _ => Err(Refusal::NotOffered),
        }
    }
}

impl Refusal {
    // The row of the table.
    pub fn number(self) -> u8
        ensures { result ≡ number_of self }
    {
        match self {
            Refusal::Length => 1,
            Refusal::Mark => 2,
            Refusal::Horizon => 3,
            Refusal::Rate => 4,
            Refusal::Lives(_) => 5,
            Refusal::Amount(_) => 6,
            Refusal::Inflation(_) => 7,
            Refusal::Ageing(_) => 8,
            Refusal::Overhauls(_) => 9,
            Refusal::Words => 10,
            Refusal::NoChain => 11,
            Refusal::PlanLength => 12,
            Refusal::NotOffered => 13,
            Refusal::NotAChain => 14,
            Refusal::GeneralInflation => 15,
            Refusal::ListLength => 16,
        }
    }

    // The option, or 3 where the row is not asked of each option.
    pub fn option(self) -> u8
        ensures { result ≡ option_of self }
    {
        match self {
            Refusal::Lives(activity)
            | Refusal::Amount(activity)
            | Refusal::Inflation(activity)
            | Refusal::Ageing(activity)
            | Refusal::Overhauls(activity) => activity as u8,
            _ => 3,
        }
    }
}

// As it is printed: its number and its option.
impl fmt::Display for Refusal {
    fn fmt<W: fmt::Write>(&self, f: &mut fmt::Formatter<W>) -> fmt::Result {
        write!(f, "refused {} {}", self.number(), self.option())
    }
}

impl Answer {
    fn accepted(total: u64) -> Answer
        ensures { result ≡ accepted total }
    {
        Answer {
            total,
            number: 0,
            option: 3,
        }
    }

    fn refused(refusal: Refusal) -> Answer
        ensures { result ≡ refused (number_of refusal) (option_of refusal) }
    {
        Answer {
            total: 0,
            number: refusal.number(),
            option: refusal.option(),
        }
    }
}

impl From<Result<u64, Refusal>> for Answer {
    ghost from_gives = { λ outcome answer. answer ≡ answer_of outcome };

    fn from(outcome: Result<u64, Refusal>) -> Answer {
        match outcome {
            Ok(total) => Answer::accepted(total),
            Err(refusal) => Answer::refused(refusal),
        }
    }
}

impl From<Result<(), Refusal>> for Answer {
    ghost from_gives = { λ outcome answer. answer ≡ check_answer outcome };

    fn from(outcome: Result<(), Refusal>) -> Answer {
        match outcome {
            Ok(()) => Answer::accepted(0),
            Err(refusal) => Answer::refused(refusal),
        }
    }
}
