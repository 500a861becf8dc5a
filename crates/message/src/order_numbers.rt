// Order numbers: the number of an upload in its series in base 36, three characters behind a letter, and back.
ghost use Rattle.std.specs.Prelude.{◌≡◌, ◌≤◌, ◌<◌};
ghost use Rattle.message.specs.OrderNumbers.{character, letter, order_number_of};
ghost use Rattle.message.specs.OrderNumbers.{digit_of, letter_of, is_order_number, order_in};

use frame_table::table::{in_range, is_capital_or_digit};

// The character of a base-36 digit, by arithmetic alone: the quotient is 0 for the ten digits and 1 for the letters,
// which stand 7 further on.
fn character(digit: u64) -> u64
    requires { digit < 36 }
    ensures value { result ≡ character digit }
    ensures small { result < 256 }
{
    48 + digit + 7 * ((digit + 26) / 36)
}

// The letter that counts A to Z.
#[tactic(auto, unfolding(crate::specs::OrderNumbers::letter))]
fn letter(count: u64) -> u64
    ensures value { result ≡ letter count }
    ensures small { result < 256 }
{
    65 + count % 26
}

// The four characters of an order number, as the number of field 0E.
#[tactic(auto, unfolding(crate::specs::OrderNumbers::order_number_of))]
pub fn order_number_of(n: u64) -> u64
    ensures { result ≡ order_number_of n }
{
    let first = letter(n / 46656);
    let second = character(n / 1296 % 36);
    let third = character(n / 36 % 36);
    let fourth = character(n % 36);
    ((first * 256 + second) * 256 + third) * 256 + fourth
}

// The base-36 digit of a character.
#[tactic(auto, unfolding(crate::specs::OrderNumbers::digit_of))]
fn digit_of(character: u64) -> u64
    ensures value { result ≡ digit_of character }
    ensures small { result ≤ character }
{
    if character < 65 {
        character.saturating_sub(48)
    } else {
        character - 55
    }
}

// What the letter counts.
#[tactic(auto, unfolding(crate::specs::OrderNumbers::letter_of))]
fn letter_of(character: u64) -> u64
    ensures value { result ≡ letter_of character }
    ensures small { result ≤ character }
{
    character.saturating_sub(65)
}

// Whether field 0E has one of A000 to ZZZZ.
#[tactic(auto, unfolding(crate::specs::OrderNumbers::is_order_number))]
pub fn is_order_number(order: u64) -> bool
    ensures { result ≡ is_order_number order }
{
    in_range(65, 90, order / 16777216)
        && is_capital_or_digit(order / 65536 % 256)
        && is_capital_or_digit(order / 256 % 256)
        && is_capital_or_digit(order % 256)
}

// Which number of its series field 0E has, where it is one of A000 to ZZZZ.
#[tactic(auto, unfolding(crate::specs::OrderNumbers::order_in))]
pub fn order_in(order: u64) -> u64
    ensures { result ≡ order_in order }
{
    let first = letter_of(order / 16777216);
    let second = digit_of(order / 65536 % 256);
    let third = digit_of(order / 256 % 256);
    let fourth = digit_of(order % 256);
    ((first * 36 + second) * 36 + third) * 36 + fourth
}
