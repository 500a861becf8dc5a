// The driver's session: each record from standard input, its line to standard output; at the end the closing tables.
ghost use Rattle.driver_session.specs.Session.{state_in, Calls, Session};

use bank_rows::layout::STATE_SIZE;
use bank_session::layout::SESSION_SIZE;
use bank_session::report::count_openings;
use bank_state::limits::STORE_BYTES;
use driver_print::call_line::line;
use driver_print::counts_table::counts_table;
use driver_print::tables::{TABLE_ROOM, Table, table_of};
use octets::bytes::front;
use std::io::Read;
use unit::call::call;
use unit_rows::events::ROW_SIZE;
use unit_rows::lines::{LINES_SIZE, STORES_BYTES};
use unit_rows::runs::{NONCES_SIZE, RUNS_SIZE};
use unit_rows::whole::unit_of;
use unit_state::answer::is_answer;
use unit_state::record::{
    RECORD_BYTES, ROOM_BYTES, call_of, head_of, is_call, kind_of, lent_length, size_of,
};
use unit_state::state::{BUFFER_BYTES, ROOMS_BYTES, UnitState};

// What a session leaves: the client runs with the journal, and the session's numbers.
#[derive(Drop)]
pub struct SessionEnd {
    pub unit: UnitState,
    pub rows: [u64; SESSION_SIZE],
}

// What the session lends to its calls.
#[derive(Drop)]
struct Lending {
    runs: [u64; RUNS_SIZE],
    nonces: [u8; NONCES_SIZE],
    row: [u64; ROW_SIZE],
    rows: [u64; SESSION_SIZE],
    orders: [u8; STORE_BYTES],
    mailboxes: [u8; STORE_BYTES],
    payloads: [u8; ROOMS_BYTES],
    files: [u8; ROOMS_BYTES],
    buffer: [u8; BUFFER_BYTES],
    room: [u8; ROOM_BYTES],
    lines: [u64; LINES_SIZE],
    stores: [u8; STORES_BYTES],
}

// Reads the bytes from a place up to an end, where all come.
fn read_part(rt: &impl Input, input: &mut [u8], from: usize, end: usize) -> Option<()> {
    let part = input.get_mut(from..end)?;
    rt.reader().read_exact(part).ok()
}

// Reads a record into the input, and gives its length, unless it is cut short or its letter is none.
fn read_record(rt: &impl Input, input: &mut [u8]) -> Option<usize> {
    read_part(rt, input, 0, 1)?;
    let kind = kind_of(first(input));
    let head = head_of(kind);
    read_part(rt, input, 1, head)?;
    let end = head + size_of(kind, input);
    read_part(rt, input, head, end)?;
    Some(end)
}

// The first byte, 0 where there is none.
fn first(input: &[u8]) -> u8 {
    input.first().copied().unwrap_or(0)
}

// One record: its call, the call's line, and whether the input may go on. A message for a line not made ends it, too.
fn step(
    rt: &(impl Input + Print),
    n: u64,
    lending: &mut Lending,
    input: &mut [u8],
    output: &mut [u8],
) -> bool
    ensures { Calls (state_in lending.old) (state_in lending.new) }
{
    let Some(size) = read_record(rt, input) else {
        return false;
    };
    let record = front(input, size);
    if !is_call(call_of(record)) {
        return false;
    }
    let answer = call(
        &mut lending.runs,
        &mut lending.nonces,
        &mut lending.row,
        record,
        &mut lending.rows,
        &mut lending.orders,
        &mut lending.mailboxes,
        &mut lending.payloads,
        &mut lending.files,
        &mut lending.buffer,
        &mut lending.room,
        &mut lending.lines,
        &mut lending.stores,
    );
    if !is_answer(answer) {
        return false;
    }
    let room = front(&lending.room, lent_length(input));
    let k = line(n, answer, &lending.buffer, room, output);
    rt.write_all(front(output, k)).is_ok()
}

// The calls of all records, counted up to a number that no run reaches, since nothing says that an input ends.
fn read_all(rt: &(impl Input + Print), lending: &mut Lending, input: &mut [u8], output: &mut [u8])
    ensures { Calls (state_in lending.old) (state_in lending.new) }
{
    for calls in 0..u64::MAX {
        if !step(rt, calls + 1, lending, input, output) {
            return;
        }
    }
}

// The closing tables, in their order.
const TABLES: [Table; 5] = [
    Table::Book,
    Table::Mailboxes,
    Table::Words,
    Table::Files,
    Table::Journal,
];

// Writes the closing tables.
fn close_tables(rt: &impl Print, unit: UnitState, lending: &Lending, output: &mut [u8]) {
    let bank = &lending.rows[..STATE_SIZE];
    for t in TABLES {
        let n = table_of(
            t,
            unit,
            bank,
            &lending.orders,
            &lending.mailboxes,
            &lending.files,
            output,
        );
        let _ = rt.write_all(front(output, n));
    }
}

// Writes the counts that the session's call gives; numbers that get number 1 have none.
fn close_counts(rt: &impl Print, rows: &[u64], output: &mut [u8]) {
    if let Ok(c) = count_openings(rows) {
        let n = counts_table(c, output);
        let _ = rt.write_all(front(output, n));
    }
}

// Makes the calls of all records, prints, and gives what the session leaves.
pub fn session(rt: &(impl Input + Print)) -> SessionEnd
    ensures { Session result.unit result.rows }
{
    let mut input = [0u8; RECORD_BYTES];
    let mut output = [0u8; TABLE_ROOM];
    let mut lending = Lending {
        runs: [0; RUNS_SIZE],
        nonces: [0; NONCES_SIZE],
        row: [0; ROW_SIZE],
        rows: [0; SESSION_SIZE],
        orders: [0; STORE_BYTES],
        mailboxes: [0; STORE_BYTES],
        payloads: [0; ROOMS_BYTES],
        files: [0; ROOMS_BYTES],
        buffer: [0; BUFFER_BYTES],
        room: [0; ROOM_BYTES],
        lines: [0; LINES_SIZE],
        stores: [0; STORES_BYTES],
    };
    read_all(rt, &mut lending, &mut input, &mut output);
    let unit = unit_of(&lending.runs, &lending.nonces, &lending.row);
    close_tables(rt, unit, &lending, &mut output);
    close_counts(rt, &lending.rows, &mut output);
    SessionEnd {
        unit,
        rows: lending.rows,
    }
}
