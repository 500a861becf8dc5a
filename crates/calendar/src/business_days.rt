// Closed days, and the first business day from a day on.
ghost use Rattle.std.specs.Prelude.{◌≡◌, ◌≤◌};
ghost use Rattle.calendar.specs.Dates.{last_day};
ghost use Rattle.calendar.specs.BusinessDays.{is_on, closed_days, any, is_closed, business_day_from};

use crate::dates::{Date, FIRST_YEAR, LAST_DAY, date_of};
use crate::easter::easter_number;

// The days of the week count from Monday, which is 0; day 0 was a Thursday.
const THURSDAY: u64 = 3;

const SATURDAY: u64 = 5;

const SUNDAY: u64 = 6;

// Whether a date is this day of this month.
#[tactic(auto, unfolding(crate::specs::BusinessDays::is_on))]
fn is_on(date: Date, day: u64, month: u64) -> bool
    ensures { result ≡ is_on day month date }
{
    date.day == day && date.month == month
}

// Whether a day is on the card's list, by its number, its date and the number of its year's Easter Sunday.
#[tactic(auto, unfolding(crate::specs::BusinessDays::weekday_of))]
fn is_listed(number: u64, date: Date, easter: u64) -> bool
    requires { (number ≤ last_day) × (easter ≤ last_day) }
    ensures { result ≡ any (closed_days number date easter) }
{
    let weekday = (number + THURSDAY) % 7;
    weekday == SATURDAY
        || weekday == SUNDAY
        || is_on(date, 1, 1)
        || number + 2 == easter
        || number == easter + 1
        || is_on(date, 1, 5)
        || is_on(date, 25, 12)
        || is_on(date, 26, 12)
}

// Whether the day is closed.
fn is_closed(number: u64) -> bool
    requires { number ≤ last_day }
    ensures { result ≡ is_closed number }
{
    let date = date_of(number);
    let easter = easter_number(date.year - FIRST_YEAR);
    is_listed(number, date, easter)
}

// The first business day from a day on; the calendar's last day is one.
pub(crate) fn business_day_from(first: u64) -> u64
    requires { first ≤ last_day }
    ensures { result ≡ business_day_from first }
{
    for number in first..LAST_DAY {
        if !is_closed(number) {
            return number;
        }
    }
    LAST_DAY
}
