// The line of a call, and the header of the calls, written into a lent output.
ghost use Rattle.std.specs.Prelude.{◌≡◌, ◌+◌, ◌≤◌, length};
ghost use Rattle.frame_table.specs.Table.{last_time};
ghost use Rattle.print.specs.Text.{Put, code_digits, printed, printed_count};
ghost use Rattle.marker_column.specs.Offset.{Timed};
ghost use Rattle.marker_session.specs.Lines.{is_answered, coded_text, coded_line, line_room};
ghost use Rattle.marker_session.specs.Lines.{call_header, header_room};

use frame_table::fields::Fields;
use marker_column::offset::{OFFSET_ROOM, put_offset};
use number_table::table::{WRONG_LENGTH, WrongLength};
use print::text::{put_byte, put_code, put_column, put_text};

// The most bytes of a line: a number, a space, a return code, a space, an offset, a newline.
pub const LINE_ROOM: usize = 20 + 1 + 6 + 1 + OFFSET_ROOM + 1;

// The bytes of the calls' header.
pub const HEADER_ROOM: usize = 17;

// The one number that a frame call can be given, as a digit.
const NUMBER_DIGIT: u8 = b'0' + WRONG_LENGTH as u8;

// Writes a call's code, or the number that it was given.
fn put_answer(output: &mut [u8], at: usize, answer: Result<usize, WrongLength>, code: u64) -> usize
    requires { at + code_digits ≤ length output.old }
    ensures { Put output.old at (coded_text answer code) output.new result }
{
    match answer {
        Ok(_) => put_code(output, at, code),
        Err(WrongLength) => put_byte(output, at, NUMBER_DIGIT),
    }
}

// Whether a call is answered by a frame.
fn is_answered(answer: Result<usize, WrongLength>) -> bool
    ensures { result ≡ is_answered answer }
{
    answer.is_ok()
}

// No struct holds the five, which come from three places and stand together in this call alone.
// Writes the line of call n, which brought this request, set this clock, and whose reply has this return code.
pub(crate) fn put_line(
    output: &mut [u8],
    at: usize,
    n: u64,
    answer: Result<usize, WrongLength>,
    code: u64,
    q: Fields,
    clock: u64,
) -> usize
    requires { (at + line_room ≤ length output.old) × (clock ≤ last_time) × Timed q }
    ensures { Put output.old at (coded_line n answer code q clock) output.new result }
{
    let a = put_column(output, at, n, b' ');
    let b = put_answer(output, a, answer, code);
    let c = put_byte(output, b, b' ');
    let d = put_offset(output, c, is_answered(answer), q, clock);
    put_byte(output, d, b'\n')
}

// The calls' header at the front of the output, and its length.
pub fn header(output: &mut [u8]) -> usize
    ensures { (output.new ≡ printed header_room call_header output.old)
        × (result ≡ printed_count header_room call_header output.old) }
{
    if output.len() < HEADER_ROOM {
        return 0;
    }
    put_text(output, 0, b"call code offset\n")
}
