// A planning sheet of 278 or 302 bytes, read into structs by value. Document 01, 'The planning sheet', and document 02, request 6.
// Nothing here is a public call: `parse` and the readers of single fields serve the crates above, which meet what they require.

#![tactic(auto)]

ghost use Rattle.std.specs.Prelude.{◌≡◌, ◌+◌, ◌<◌};
ghost use Rattle.base.specs.Outcome.{place};
ghost use Rattle.sheet.specs.Layout.{is_long, Sized, RecordAt};
ghost use Rattle.sheet.specs.Sheet.{sheet_of};
ghost use Rattle.sheet.specs.Parsed.{terms_of, parsed};

use base::{Activity, numbers};

mod fields;
mod record;

// Where the first of the three records starts, how long each is, and how long each is in the longer sheet, whose records end with removal.
const RECORDS: usize = 11;

const RECORD_LENGTH: usize = 89;

const LONG_RECORD_LENGTH: usize = 97;

pub const SHEET_LENGTH: usize = RECORDS + RECORD_LENGTH * 3;

pub const LONG_SHEET_LENGTH: usize = RECORDS + LONG_RECORD_LENGTH * 3;

// T is at most 300: a list by years has a place for each of the years 0 to 300.
pub const YEARS: usize = 301;

// An amount with the factors of its rates: `grow` is 1,000,000 + inflation, `age` is 1,000,000 + ageing.
#[derive(Clone, Copy)]
pub struct Flow {
    pub amount: u64,
    pub grow: u64,
    pub age: u64,
}

// The overhauls of an option; the first `count` of the eight are used.
#[derive(Clone, Copy)]
pub struct Overhauls {
    pub grow: u64,
    pub count: u64,
    pub ages: [u64; 8],
    pub amounts: [u64; 8],
}

// What an option's record says.
#[derive(Clone, Copy)]
pub struct Terms {
    pub shortest: u64,
    pub longest: u64,
    pub investment: Flow,
    pub maintenance: Flow,
    pub electricity: Flow,
    pub overhauls: Overhauls,
    pub removal: Flow,
}

// What a sheet says; `discount` is 1,000,000 + the real discount rate.
#[derive(Clone, Copy)]
pub struct Sheet {
    pub horizon: u64,
    pub discount: u64,
    pub options: [Terms; 3],
}

// Single fields of a sheet of a right length, for a caller that needs no more: T, the discount factor, the terms of an activity, and the
// age and the amount of its overhaul `j`.
pub fn horizon_of(s: &[u8]) -> u64
    requires { Sized s.now }
    ensures { result ≡ (sheet_of s.now).horizon }
{
    numbers::u16_at(s, 5)
}

pub fn discount_of(s: &[u8]) -> u64
    requires { Sized s.now }
    ensures { result ≡ 1_000_000 + (sheet_of s.now).rate }
{
    1_000_000 + numbers::u32_at(s, 7)
}

// Whether a sheet is the longer one.
fn is_long(s: &[u8]) -> bool
    ensures { result ≡ is_long s.now }
{
    s.len() == LONG_SHEET_LENGTH
}

// Where the record of an activity starts.
fn start_of(s: &[u8], activity: Activity) -> usize
    requires { Sized s.now }
    ensures { RecordAt s.now (place activity) result }
{
    let k = activity.place();
    if is_long(s) {
        return RECORDS + LONG_RECORD_LENGTH * k;
    }
    RECORDS + RECORD_LENGTH * k
}

pub fn terms_of(s: &[u8], activity: Activity) -> Terms
    requires { Sized s.now }
    ensures { result ≡ terms_of ((sheet_of s.now).option (place activity)) }
{
    record::terms_at(s, start_of(s, activity), is_long(s))
}

pub fn age_of(s: &[u8], activity: Activity, j: usize) -> u64
    requires { Sized s.now × (j < 8) }
    ensures { result ≡ (((sheet_of s.now).option (place activity)).overhaul j).age }
{
    numbers::u16_at(s, start_of(s, activity) + (41 + 6 * j))
}

pub fn amount_of(s: &[u8], activity: Activity, j: usize) -> u64
    requires { Sized s.now × (j < 8) }
    ensures { result ≡ (((sheet_of s.now).option (place activity)).overhaul j).amount }
{
    numbers::u32_at(s, start_of(s, activity) + (43 + 6 * j))
}

// All fields of a sheet of a right length, whatever they hold.
pub fn parse(s: &[u8]) -> Sheet
    requires { Sized s.now }
    ensures { result ≡ parsed (sheet_of s.now) }
{
    let maintain = terms_of(s, Activity::Maintain);
    let renovate = terms_of(s, Activity::Renovate);
    let replace = terms_of(s, Activity::Replace);
    Sheet {
        horizon: horizon_of(s),
        discount: discount_of(s),
        options: [maintain, renovate, replace],
    }
}
