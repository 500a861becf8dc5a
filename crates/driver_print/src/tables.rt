// The closing tables: the book, the mailboxes, the runs' closing words, the runs' files and the journal, written into a
// lent output.
ghost use Rattle.std.specs.Prelude.{◌≡◌, ◌+◌, ◌*◌, ◌≤◌, ◌<◌, length};
ghost use Rattle.message.specs.Limits.{file_bytes};
ghost use Rattle.journal.specs.Records.{name_of};
ghost use Rattle.bank_rows.specs.Layout.{state_size};
ghost use Rattle.bank_steps.specs.Lent.{lent};
ghost use Rattle.print.specs.Text.{Put, rows_to, printed, printed_count};
ghost use Rattle.print.specs.Closing.{closing_room};
ghost use Rattle.driver_print.specs.Tables.{header_text, content_text, order_row, file_row, stage_text, word_row};
ghost use Rattle.driver_print.specs.Tables.{held_by, transaction_text, kind_text, is_used, event_row};
ghost use Rattle.driver_print.specs.Tables.{row_at, row_count, table_of, header_room, content_room, row_room};
ghost use Rattle.driver_print.specs.Tables.{transaction_room, kind_room, event_room, room_of, table_room};

use crate::call_line::put_hex;
use bank_rows::numbers::file_length;
use bank_rows::places::place_at;
use bank_state::limits::PLACE_COUNT;
use bank_state::search::is_booked;
use bank_state::state::Place;
use bank_state::store::file_of;
use client_rules::rulings::is_begun;
use client_run::run::{ClientRun, Stage, order_name};
use journal::event::{Event, Kind, OrderName, RECORD_COUNT};
use message::directions::Direction;
use message::limits::FILE_BYTES;
use message::order_numbers::order_number_of;
use octets::bytes::digits;
use print::book::{BOOK_HEADER_ROOM, ORDER_COLUMNS_ROOM, put_book_header, put_order_columns};
use print::closing::put_closing;
use print::name::put_order_name;
use print::text::{put_byte, put_column, put_text};
use unit_state::record::RUN_COUNT;
use unit_state::state::UnitState;

// The most bytes of a table: the book's header and 16 of its rows.
pub const TABLE_ROOM: usize = BOOK_HEADER_ROOM
    + 8
    + RUN_COUNT * (ORDER_COLUMNS_ROOM + 2 * FILE_BYTES + 1);

// The closing tables.
#[derive(Clone, Copy)]
pub enum Table {
    Book,
    Mailboxes,
    Words,
    Files,
    Journal,
}

// Writes the header of a table at the front of the output.
fn put_header(output: &mut [u8], t: Table) -> usize
    requires { header_room ≤ length output.old }
    ensures { Put output.old 0 (header_text t) output.new result }
{
    match t {
        Table::Book => {
            let a = put_book_header(output, 0, b' ');
            put_text(output, a, b"content\n")
        }
        Table::Mailboxes => put_text(output, 0, b"mailbox bytes content\n"),
        Table::Words => put_text(output, 0, b"run word\n"),
        Table::Files => put_text(output, 0, b"run bytes content\n"),
        Table::Journal => put_text(
            output,
            0,
            b"event clock subscriber type order transaction kind\n",
        ),
    }
}

// Writes a file's bytes, to the line's end.
fn put_content(output: &mut [u8], at: usize, content: &[u8]) -> usize
    requires { (at + content_room ≤ length output.old) × (length content.now ≤ file_bytes) }
    ensures { Put output.old at (content_text content.now) output.new result }
{
    let a = put_hex(output, at, content);
    put_byte(output, a, b'\n')
}

// Writes the row of a place, where it holds a booked order.
fn put_order(output: &mut [u8], at: usize, p: Place, content: &[u8]) -> usize
    requires { (at + row_room ≤ length output.old) × (length content.now ≤ file_bytes) }
    ensures { Put output.old at (order_row p content.now) output.new result }
{
    if !is_booked(p.used) {
        return at;
    }
    let a = put_order_columns(output, at, p, content.len() as u64, b' ');
    put_content(output, a, content)
}

// Writes the row of a mailbox's or a run's file, where it is not empty.
fn put_file(output: &mut [u8], at: usize, n: u64, content: &[u8]) -> usize
    requires { (at + row_room ≤ length output.old) × (length content.now ≤ file_bytes) }
    ensures { Put output.old at (file_row n content.now) output.new result }
{
    if content.is_empty() {
        return at;
    }
    let a = put_column(output, at, n, b' ');
    let b = put_column(output, a, content.len() as u64, b' ');
    put_content(output, b, content)
}

// Writes what a run that has begun came to.
fn put_stage(output: &mut [u8], at: usize, stage: Stage, order: OrderName) -> usize
    requires { at + closing_room ≤ length output.old }
    ensures { Put output.old at (stage_text stage order) output.new result }
{
    match stage {
        Stage::NotBegun => at,
        Stage::Running => put_text(output, at, b"open"),
        Stage::Ended(word) => put_closing(output, at, word, order),
    }
}

// Writes the row of a run that has begun.
fn put_word(output: &mut [u8], at: usize, n: u64, c: ClientRun) -> usize
    requires { at + row_room ≤ length output.old }
    ensures { Put output.old at (word_row n c) output.new result }
{
    if !is_begun(c.stage) {
        return at;
    }
    let a = put_column(output, at, n, b' ');
    let b = put_stage(output, a, c.stage, order_name(c));
    put_byte(output, b, b'\n')
}

// How many bytes of its file a run holds.
fn held_by(c: ClientRun) -> u64
    ensures { result ≡ held_by c.direction c }
{
    match c.direction {
        Direction::Upload => 0,
        Direction::Download => c.length,
    }
}

// Writes what happened to an upload or a booked order, to the line's end. A record that is not in use says nothing.
fn put_kind(output: &mut [u8], at: usize, kind: Kind) -> usize
    requires { at + kind_room ≤ length output.old }
    ensures { Put output.old at (kind_text kind) output.new result }
{
    match kind {
        Kind::Unused => at,
        Kind::Opened => put_text(output, at, b"opened\n"),
        Kind::Booked => put_text(output, at, b"booked\n"),
        Kind::Cancelled => put_text(output, at, b"cancelled\n"),
        Kind::Dropped => put_text(output, at, b"dropped\n"),
        Kind::Signed => put_text(output, at, b"signed\n"),
    }
}

// Whether a record is in use.
fn is_used(kind: Kind) -> bool
    ensures { result ≡ is_used kind }
{
    !matches!(kind, Kind::Unused)
}

// What names the order of an event.
fn name_of(e: Event) -> OrderName
    ensures { result ≡ name_of e }
{
    OrderName {
        subscriber: e.subscriber,
        order_type: e.order_type,
        number: order_number_of(e.order),
    }
}

// Writes the transaction ID of an event.
fn put_transaction(output: &mut [u8], at: usize, e: Event) -> usize
    requires { at + transaction_room ≤ length output.old }
    ensures { Put output.old at (transaction_text e) output.new result }
{
    put_hex(output, at, &digits(e.high, e.low))
}

// Writes the row of a record that is in use.
fn put_event(output: &mut [u8], at: usize, e: Event) -> usize
    requires { at + event_room ≤ length output.old }
    ensures { Put output.old at (event_row e) output.new result }
{
    if !is_used(e.kind) {
        return at;
    }
    let a = put_column(output, at, e.number, b' ');
    let b = put_column(output, a, e.clock, b' ');
    let c = put_order_name(output, b, name_of(e));
    let d = put_byte(output, c, b' ');
    let t = put_transaction(output, d, e);
    let s = put_byte(output, t, b' ');
    put_kind(output, s, e.kind)
}

// What the tables show: the unit, the memory lent to its bank, and the runs' file buffers.
#[derive(Clone, Copy)]
struct Shown<'a> {
    unit: UnitState,
    rows: &'a [u64],
    orders: &'a [u8],
    mailboxes: &'a [u8],
    files: &'a [u8],
}

// Writes row i of a table.
fn put_row(output: &mut [u8], at: usize, t: Table, shown: &Shown, i: usize) -> usize
    requires { (at + room_of t ≤ length output.old) × (i < row_count t) × (length shown.now.rows.now ≡ state_size) }
    ensures { Put output.old at
        (row_at t shown.now.unit (lent shown.now.rows.now shown.now.orders.now shown.now.mailboxes.now)
        shown.now.files.now i)
        output.new result }
{
    let n = i as u64 + 1;
    match t {
        Table::Book => {
            let p = place_at(shown.rows, i);
            put_order(output, at, p, file_of(shown.orders, i, p.length))
        }
        Table::Mailboxes => {
            let length = file_length(shown.rows, i);
            put_file(output, at, n, file_of(shown.mailboxes, i, length))
        }
        Table::Words => {
            let run = shown.unit.runs[i];
            put_word(output, at, n, run.client.run)
        }
        Table::Files => {
            let run = shown.unit.runs[i];
            put_file(
                output,
                at,
                n,
                file_of(shown.files, i, held_by(run.client.run)),
            )
        }
        Table::Journal => put_event(output, at, shown.unit.journal[i]),
    }
}

// How many rows a table has at most.
fn row_count(t: Table) -> usize
    ensures { result ≡ row_count t }
{
    match t {
        Table::Book | Table::Mailboxes => PLACE_COUNT,
        Table::Words | Table::Files => RUN_COUNT,
        Table::Journal => RECORD_COUNT,
    }
}

// Writes all rows of a table.
fn put_rows(output: &mut [u8], at: usize, t: Table, shown: &Shown) -> usize
    requires { (at + row_count t * room_of t ≤ length output.old) × (length shown.now.rows.now ≡ state_size) }
    ensures { Put output.old at
        (rows_to
        (row_at t shown.now.unit (lent shown.now.rows.now shown.now.orders.now shown.now.mailboxes.now)
        shown.now.files.now)
        (row_count t))
        output.new result }
{
    let mut end = at;
    for i in 0..row_count(t) {
        end = put_row(output, end, t, shown, i);
    }
    end
}

// A closing table at the front of the output, and its length.
pub fn table_of(
    t: Table,
    u: UnitState,
    rows: &[u64],
    orders: &[u8],
    mailboxes: &[u8],
    files: &[u8],
    output: &mut [u8],
) -> usize
    requires { length rows.now ≡ state_size }
    ensures { (output.new
        ≡ printed table_room
        (table_of t u (lent rows.now orders.now mailboxes.now) files.now)
        output.old)
        × (result
        ≡ printed_count table_room
        (table_of t u (lent rows.now orders.now mailboxes.now) files.now)
        output.old) }
{
    if output.len() < TABLE_ROOM {
        return 0;
    }
    let at = put_header(output, t);
    let shown = Shown {
        unit: u,
        rows,
        orders,
        mailboxes,
        files,
    };
    put_rows(output, at, t, &shown)
}
