// Numbers in digits and texts, written into a lent output from a place on. The output and the place are two parameters,
// and no `write!` stands for them, since `Put` in each contract says which bytes stand where, and which do not change.
ghost use Rattle.std.specs.Prelude.{◌≡◌, [], ◌∷◌, ◌+◌, ◌≤◌, ◌<◌, length};
ghost use Rattle.print.specs.Text.{Put, digits_in, max_digits, digit_count, decimal};
ghost use Rattle.print.specs.Text.{sign_of, signed_decimal, signed_room};
ghost use Rattle.print.specs.Text.{code_digits, order_characters, code_text, order_number_text};
ghost use Rattle.print.specs.Text.{type_column, type_room};
ghost use Rattle.print.specs.Text.{column, column_room};

use octets::bytes::copy;

// The digits of a return code, and the characters of an order number and of an order type.
pub const CODE_DIGITS: usize = 6;

pub const ORDER_CHARACTERS: usize = 4;

const TYPE_CHARACTERS: usize = 3;

// How many decimal digits x has.
pub fn digit_count(x: u64) -> usize
    ensures { result ≡ digit_count x }
{
    x.max(1).ilog10() as usize + 1
}

// Writes the last w digits of x in a base from a place on, and gives the place behind them.
pub fn put_digits(output: &mut [u8], at: usize, base: u64, first: u64, w: usize, x: u64) -> usize
    requires { (at + w ≤ length output.old) × (0 < base) × (first + base ≤ 256) }
    ensures { Put output.old at (digits_in base first w x) output.new result }
{
    let mut rest = x;
    for i in (0..w).rev() {
        output[at + i] = (first + rest % base) as u8;
        rest /= base;
    }
    at + w
}

// Writes x in decimal.
pub fn put_decimal(output: &mut [u8], at: usize, x: u64) -> usize
    requires { at + max_digits ≤ length output.old }
    ensures { Put output.old at (decimal x) output.new result }
{
    put_digits(output, at, 10, 48, digit_count(x), x)
}

// Writes a hyphen before a negative number, and nothing before another.
fn put_sign(output: &mut [u8], at: usize, x: i64) -> usize
    requires { at < length output.old }
    ensures { Put output.old at (sign_of x) output.new result }
{
    if x < 0 {
        put_byte(output, at, b'-')
    } else {
        at
    }
}

// Writes a signed number in decimal.
pub fn put_signed(output: &mut [u8], at: usize, x: i64) -> usize
    requires { at + signed_room ≤ length output.old }
    ensures { Put output.old at (signed_decimal x) output.new result }
{
    let a = put_sign(output, at, x);
    put_decimal(output, a, x.unsigned_abs())
}

// Writes the digits of a return code, given as the number of field 0D.
pub fn put_code(output: &mut [u8], at: usize, code: u64) -> usize
    requires { at + code_digits ≤ length output.old }
    ensures { Put output.old at (code_text code) output.new result }
{
    put_digits(output, at, 256, 0, CODE_DIGITS, code)
}

// The digits of a return code, given as the number of field 0D.
pub fn code_digits(code: u64) -> [u8; CODE_DIGITS]
    ensures { result ≡ code_text code }
{
    let mut text = [0u8; CODE_DIGITS];
    put_code(&mut text, 0, code);
    text
}

// Writes the characters of an order number, given as the number of field 0E.
pub fn put_order_number(output: &mut [u8], at: usize, number: u64) -> usize
    requires { at + order_characters ≤ length output.old }
    ensures { Put output.old at (order_number_text number) output.new result }
{
    put_digits(output, at, 256, 0, ORDER_CHARACTERS, number)
}

// Writes one byte.
pub fn put_byte(output: &mut [u8], at: usize, b: u8) -> usize
    requires { at < length output.old }
    ensures { Put output.old at (b ∷ []) output.new result }
{
    output[at] = b;
    at + 1
}

// Writes the characters of an order type, given as the number of field 04, and a space behind them.
pub fn put_type(output: &mut [u8], at: usize, x: u64) -> usize
    requires { at + type_room ≤ length output.old }
    ensures { Put output.old at (type_column x) output.new result }
{
    let a = put_digits(output, at, 256, 0, TYPE_CHARACTERS, x);
    put_byte(output, a, b' ')
}

// Writes a number and the byte behind it.
pub fn put_column(output: &mut [u8], at: usize, x: u64, end: u8) -> usize
    requires { at + column_room ≤ length output.old }
    ensures { Put output.old at (column x end) output.new result }
{
    let a = put_decimal(output, at, x);
    put_byte(output, a, end)
}

// Writes a text.
pub fn put_text(output: &mut [u8], at: usize, text: &[u8]) -> usize
    requires { at + length text.now ≤ length output.old }
    ensures { Put output.old at text.now output.new result }
{
    copy(output, at, text);
    at + text.len()
}
