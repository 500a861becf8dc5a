// Bytes in hexadecimal, and the line of a call, written into a lent output.
ghost use Rattle.std.specs.Prelude.{◌≡◌, ◌++◌, ◌+◌, ◌*◌, ◌≤◌, ◌<◌, length};
ghost use Rattle.print.specs.Text.{Put, printed, printed_count};
ghost use Rattle.driver_print.specs.Line.{hex_digit, hex_of, away_text, message_text, out_text, answer_text, line_of};
ghost use Rattle.driver_print.specs.Line.{away_room, out_room, answer_room, line_room};

use crate::digest::digest;
use octets::bytes::front;
use print::closing::put_closing;
use print::day::put_day;
use print::seven::{COUNTS_ROOM, put_counts};
use print::text::{put_byte, put_column, put_decimal, put_text};
use unit_state::answer::Answer;

// The most bytes of a line but for those of a reply, a request or a message.
const LINE_BYTES: usize = 21 + 7 + COUNTS_ROOM + 1;

// The character of a hexadecimal digit.
#[tactic(auto, unfolding(crate::specs::Line::hex_digit))]
fn hex_digit(d: u8) -> u8
    requires { d < 16 }
    ensures { result ≡ hex_digit d }
{
    if d < 10 { b'0' + d } else { b'a' - 10 + d }
}

// Writes bytes in hexadecimal.
pub(crate) fn put_hex(output: &mut [u8], at: usize, bytes: &[u8]) -> usize
    requires { at + 2 * length bytes.now ≤ length output.old }
    ensures { Put output.old at (hex_of bytes.now) output.new result }
{
    let mut end = at;
    for b in bytes {
        output[end] = hex_digit(*b / 16);
        output[end + 1] = hex_digit(*b % 16);
        end += 2;
    }
    end
}

// Writes a name and the bytes behind it in hexadecimal.
fn put_named(output: &mut [u8], at: usize, name: &[u8], bytes: &[u8]) -> usize
    requires { at + (length name.now + 2 * length bytes.now) ≤ length output.old }
    ensures { Put output.old at (name.now ++ hex_of bytes.now)
        output.new result }
{
    let a = put_text(output, at, name);
    put_hex(output, a, bytes)
}

// Writes the length of an image, and the digest of the bytes lent for it.
fn put_away(output: &mut [u8], at: usize, n: usize, room: &[u8]) -> usize
    requires { at + away_room ≤ length output.old }
    ensures { Put output.old at (away_text n room.now) output.new result }
{
    let a = put_text(output, at, b"away ");
    let b = put_column(output, a, n as u64, b' ');
    put_decimal(output, b, digest(room))
}

// Writes a message in hexadecimal, a hyphen where it is empty.
fn put_message(output: &mut [u8], at: usize, message: &[u8]) -> usize
    requires { at + (1 + 2 * length message.now) ≤ length output.old }
    ensures { Put output.old at (message_text message.now) output.new result }
{
    if message.is_empty() {
        return put_byte(output, at, b'-');
    }
    put_hex(output, at, message)
}

// Writes how many copies come out, and the held message behind them.
fn put_out(output: &mut [u8], at: usize, copies: u64, message: &[u8]) -> usize
    requires { at + out_room (length message.now) ≤ length output.old }
    ensures { Put output.old at (out_text copies message.now) output.new result }
{
    let a = put_text(output, at, b"out ");
    let b = put_column(output, a, copies, b' ');
    put_message(output, b, message)
}

// Writes what an answer says; the bytes of the image room are those lent.
fn put_answer(output: &mut [u8], at: usize, answer: Answer, buffer: &[u8], room: &[u8]) -> usize
    requires { at + answer_room (length buffer.now) ≤ length output.old }
    ensures { Put output.old at (answer_text answer buffer.now room.now)
        output.new result }
{
    match answer {
        Answer::Frame(n) => put_named(output, at, b"frame ", front(buffer, n)),
        Answer::Put => put_text(output, at, b"put"),
        Answer::Request(n) => put_named(output, at, b"request ", front(buffer, n)),
        Answer::Ignored => put_text(output, at, b"ignored"),
        Answer::Closed(word, order) => {
            let a = put_text(output, at, b"closed ");
            put_closing(output, a, word, order)
        }
        Answer::Unchanged => put_text(output, at, b"unchanged"),
        Answer::Away(n) => put_away(output, at, n, room),
        Answer::TakenUp => put_text(output, at, b"taken up"),
        Answer::Room => put_text(output, at, b"room"),
        Answer::Day(date) => {
            let a = put_text(output, at, b"day ");
            put_day(output, a, date)
        }
        Answer::Line => put_text(output, at, b"line"),
        Answer::Out(copies) => {
            let a = put_text(output, at, b"out ");
            put_decimal(output, a, copies)
        }
        Answer::OutAndHeld(copies, n) => put_out(output, at, copies, front(buffer, n)),
        Answer::Counted(c) => {
            let a = put_text(output, at, b"counts ");
            put_counts(output, a, c)
        }
        Answer::Number(n) => {
            let a = put_text(output, at, b"number ");
            put_decimal(output, a, n)
        }
        Answer::NoCall => at,
    }
}

// Writes the line of call n.
fn put_line(output: &mut [u8], n: u64, answer: Answer, buffer: &[u8], room: &[u8]) -> usize
    requires { line_room (length buffer.now) ≤ length output.old }
    ensures { Put output.old 0 (line_of n answer buffer.now room.now)
        output.new result }
{
    let a = put_column(output, 0, n, b' ');
    let b = put_answer(output, a, answer, buffer, room);
    put_byte(output, b, b'\n')
}

// The line of call n at the front of the output, and its length. The bytes of the image room are those lent.
pub fn line(n: u64, answer: Answer, buffer: &[u8], room: &[u8], output: &mut [u8]) -> usize
    ensures { (output.new
        ≡ printed (line_room (length buffer.now))
        (line_of n answer buffer.now room.now) output.old)
        × (result ≡ printed_count (line_room (length buffer.now))
        (line_of n answer buffer.now room.now) output.old) }
{
    let size = output.len();
    if size < LINE_BYTES {
        return 0;
    }
    if (size - LINE_BYTES) / 2 < buffer.len() {
        return 0;
    }
    put_line(output, n, answer, buffer, room)
}
