// Dates of the Gregorian calendar from 1970 to 2199, and the number of a day, counted from 1 January 1970.
ghost use Rattle.std.specs.Prelude.{◌≡◌, ◌+◌, ◌≤◌, ◌<◌};
ghost use Rattle.calendar.specs.Dates.{first_year, year_count, leap_day, year_start, month_start, Spans};
ghost use Rattle.calendar.specs.Dates.{date_of, last_day};

// A date; months and days count from 1.
#[derive(Clone, Copy)]
pub struct Date {
    pub year: u64,
    pub month: u64,
    pub day: u64,
}

// The year of day 0.
pub(crate) const FIRST_YEAR: u64 = 1970;

// The number of 31 December 2199.
pub(crate) const LAST_DAY: u64 = 84005;

// The days of the first months of a year that is no leap year, none to all twelve.
const MONTH_STARTS: [u64; 13] = [0, 31, 59, 90, 120, 151, 181, 212, 243, 273, 304, 334, 365];

// 1 in a leap year: every fourth year is one, of the full hundreds only every fourth.
#[tactic(auto, unfolding(crate::specs::Dates::leap_day, crate::specs::Dates::is_leap))]
fn leap_day(year: u64) -> u64
    ensures { result ≡ leap_day year }
{
    u64::from(year % 4 == 0 && (year % 100 != 0 || year % 400 == 0))
}

// The days of the first so many years: 365 each, and their leap days.
pub(crate) fn year_start(years: u64) -> u64
    requires { years ≤ year_count }
    ensures { result ≡ year_start years }
{
    365 * years + (years + 1) / 4 + (years + 369) / 400 - (years + 69) / 100
}

// The days of the first so many months of 1970, which was no leap year.
fn common_start(months: u64) -> u64
    requires { months ≤ 12 }
    ensures { result ≡ month_start first_year months }
{
    MONTH_STARTS[months as usize]
}

// The days of the first so many months of a year.
pub(crate) fn month_start(year: u64, months: u64) -> u64
    requires { months ≤ 12 }
    ensures { result ≡ month_start year months }
{
    let days = common_start(months);
    if months < 2 {
        days
    } else {
        days + leap_day(year)
    }
}

// This and `months_before` stay two: one function over where a year or a month starts would need a closure's clauses.
// How many years lie before the day's: so many as of 366 days each, or one more, since most have 365.
fn years_before(number: u64) -> u64
    requires { number ≤ last_day }
    ensures { Spans year_start result number × (result < year_count) }
{
    let years = number / 366;
    if year_start(years + 1) <= number {
        years + 1
    } else {
        years
    }
}

// How many months lie before a day of the year: so many as of 31 days each, or one more, since some are shorter.
fn months_before(year: u64, rest: u64) -> u64
    requires { rest < 365 + leap_day year }
    ensures { Spans (month_start year) result rest × (result < 12) }
{
    let months = rest / 31;
    if month_start(year, months + 1) <= rest {
        months + 1
    } else {
        months
    }
}

// The date of the day of this number.
pub(crate) fn date_of(number: u64) -> Date
    requires { number ≤ last_day }
    ensures { result ≡ date_of number }
{
    let years = years_before(number);
    let rest = number - year_start(years);
    let year = FIRST_YEAR + years;
    let months = months_before(year, rest);
    Date {
        year,
        month: months + 1,
        day: rest - month_start(year, months) + 1,
    }
}
