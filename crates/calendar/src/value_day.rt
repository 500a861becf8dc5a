// The call: the day on which an order booked at a time is executed.
ghost use Rattle.std.specs.Prelude.{◌≡◌};
ghost use Rattle.calendar.specs.ValueDay.{first_day, answered, value_day_call};

use crate::business_days::business_day_from;
use crate::dates::{Date, LAST_DAY, date_of};
use number_table::table::TooLate;

// A day, and its part before 16:00:00.000, in milliseconds.
const HOUR: u64 = 3_600_000;

const DAY_LENGTH: u64 = 24 * HOUR;

const CUT_OFF: u64 = 16 * HOUR;

// The first day that a booking may take: its own only before the cut-off.
#[tactic(auto, unfolding(crate::specs::ValueDay::first_day))]
fn first_day(time: u64) -> u64
    ensures { result ≡ first_day time }
{
    let day = time / DAY_LENGTH;
    if time % DAY_LENGTH < CUT_OFF {
        day
    } else {
        day + 1
    }
}

// The value day of an order booked at this time, in milliseconds since 1970 UTC.
pub fn value_day(time: u64) -> Result<Date, TooLate>
    ensures { answered result ≡ value_day_call time }
{
    let first = first_day(time);
    if LAST_DAY < first {
        return Err(TooLate);
    }
    Ok(date_of(business_day_from(first)))
}
