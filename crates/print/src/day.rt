// A day, written into a lent output.
ghost use Rattle.std.specs.Prelude.{◌+◌, ◌≤◌, length};
ghost use Rattle.print.specs.Text.{Put};
ghost use Rattle.print.specs.Day.{last_digits, day_text, day_room};

use crate::text::{put_byte, put_digits};
use calendar::dates::Date;

// The bytes of a day.
pub const DAY_ROOM: usize = 4 + 1 + 2 + 1 + 2;

// Writes the last w decimal digits of a number.
fn put_last(output: &mut [u8], at: usize, w: usize, x: u64) -> usize
    requires { at + w ≤ length output.old }
    ensures { Put output.old at (last_digits w x) output.new result }
{
    put_digits(output, at, 10, 48, w, x)
}

// Writes a day: year, month and day in four, two and two digits.
pub fn put_day(output: &mut [u8], at: usize, date: Date) -> usize
    requires { at + day_room ≤ length output.old }
    ensures { Put output.old at (day_text date) output.new result }
{
    let a = put_last(output, at, 4, date.year);
    let b = put_byte(output, a, b'-');
    let c = put_last(output, b, 2, date.month);
    let d = put_byte(output, c, b'-');
    put_last(output, d, 2, date.day)
}
