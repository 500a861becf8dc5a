// The book: the names of its columns, the columns of an order, and the whole, written into a lent output.
ghost use Rattle.std.specs.Prelude.{◌≡◌, ◌+◌, ◌*◌, ◌≤◌, length};
ghost use Rattle.bank_state.specs.Limits.{place_count};
ghost use Rattle.bank_rows.specs.Layout.{state_size};
ghost use Rattle.bank_rows.specs.State.{bank_of};
ghost use Rattle.print.specs.Text.{Put, rows_to, printed, printed_count};
ghost use Rattle.print.specs.Book.{book_header, book_header_room, released_text, released_room};
ghost use Rattle.print.specs.Book.{signer_columns, signer_columns_room, order_columns, order_columns_room};
ghost use Rattle.print.specs.Book.{order_line, line_at, book_of, book_room};

use crate::text::{put_byte, put_column, put_order_number, put_text, put_type};
use bank_rows::places::place_at;
use bank_state::limits::PLACE_COUNT;
use bank_state::search::is_booked;
use bank_state::state::Place;
use message::limits::FUL;
use message::order_numbers::order_number_of;
use signers::set::{count, is_released};

// The most bytes of the columns' names with the byte after them, of an order's columns, the last two those of its
// signers, and of the book.
pub const BOOK_HEADER_ROOM: usize = 44 + 1;

pub const ORDER_COLUMNS_ROOM: usize = 4 + 1 + 21 + 4 + 21 + (21 + 3 + 1);

pub const BOOK_ROOM: usize = BOOK_HEADER_ROOM + PLACE_COUNT * ORDER_COLUMNS_ROOM;

// Writes the names of the columns, and the byte after them.
pub fn put_book_header(output: &mut [u8], at: usize, end: u8) -> usize
    requires { at + book_header_room ≤ length output.old }
    ensures { Put output.old at (book_header end) output.new result }
{
    let a = put_text(output, at, b"order subscriber type bytes signers released");
    put_byte(output, a, end)
}

// Writes whether an order is released.
fn put_released(output: &mut [u8], at: usize, released: bool) -> usize
    requires { at + released_room ≤ length output.old }
    ensures { Put output.old at (released_text released) output.new result }
{
    if released {
        put_text(output, at, b"yes")
    } else {
        put_text(output, at, b"no")
    }
}

// Writes how many signers an order has, whether they release it, and the byte after both. The set is the low byte.
fn put_signers(output: &mut [u8], at: usize, set: u64, end: u8) -> usize
    requires { at + signer_columns_room ≤ length output.old }
    ensures { Put output.old at (signer_columns set end) output.new result }
{
    let signers = (set % 256) as u8;
    let a = put_column(output, at, count(signers) as u64, b' ');
    let b = put_released(output, a, is_released(signers));
    put_byte(output, b, end)
}

// Writes the columns of an order of so many bytes, an upload, and the byte after them.
pub fn put_order_columns(output: &mut [u8], at: usize, p: Place, bytes: u64, end: u8) -> usize
    requires { at + order_columns_room ≤ length output.old }
    ensures { Put output.old at (order_columns p bytes end) output.new result }
{
    let a = put_order_number(output, at, order_number_of(p.number));
    let b = put_byte(output, a, b' ');
    let c = put_column(output, b, p.subscriber, b' ');
    let d = put_type(output, c, FUL);
    let e = put_column(output, d, bytes, b' ');
    put_signers(output, e, p.signers, end)
}

// Writes the line of a place, where it holds a booked order.
fn put_order(output: &mut [u8], at: usize, p: Place) -> usize
    requires { at + order_columns_room ≤ length output.old }
    ensures { Put output.old at (order_line p) output.new result }
{
    if is_booked(p.used) {
        put_order_columns(output, at, p, p.length, b'\n')
    } else {
        at
    }
}

// Writes the lines of all places.
fn put_orders(output: &mut [u8], at: usize, rows: &[u64]) -> usize
    requires { (at + place_count * order_columns_room ≤ length output.old) × (length rows.now ≡ state_size) }
    ensures { Put output.old at (rows_to (line_at (bank_of rows.now)) place_count)
        output.new result }
{
    let mut end = at;
    for i in 0..PLACE_COUNT {
        end = put_order(output, end, place_at(rows, i));
    }
    end
}

// The book of the bank that the rows are, at the front of the output, and its length.
pub fn book(rows: &[u64], output: &mut [u8]) -> usize
    requires { length rows.now ≡ state_size }
    ensures { (output.new ≡ printed book_room (book_of (bank_of rows.now)) output.old)
        × (result ≡ printed_count book_room (book_of (bank_of rows.now)) output.old) }
{
    if output.len() < BOOK_ROOM {
        return 0;
    }
    let at = put_book_header(output, 0, b'\n');
    put_orders(output, at, rows)
}
