// The marker's session: records from standard input to its end, the print to standard output.
ghost use Rattle.std.specs.Prelude.{◌≡◌, ◌-◌, ◌≤◌, length, take, drop};
ghost use Rattle.octets.specs.Bytes.{overwrite};
ghost use Rattle.bank_rows.specs.Layout.{state_size};
ghost use Rattle.marker_session.specs.Memory.{lent_of};
ghost use Rattle.marker_session.specs.Marking.{Clocked};
ghost use Rattle.marker_session.specs.Session.{reading_of, HasRoom, ReadFrom, started_with, SessionOf};

use crate::line::{LINE_ROOM, header};
use crate::mark::mark;
use crate::memory::Memory;
use crate::record::HEAD_BYTES;
use bank_rows::layout::STATE_SIZE;
use bank_state::limits::{REPLY_ROOM, STORE_BYTES};
use octets::bytes::front;
use print::book::book;
use std::io::Read;

// The input held: a record of the longest frame.
const INPUT_BYTES: usize = HEAD_BYTES + 65535;

// The output: a line for each record that the input can hold.
const OUTPUT_BYTES: usize = INPUT_BYTES / HEAD_BYTES * LINE_ROOM;

// Between two reads: the calls so far, the bytes held of a record cut short.
#[derive(Clone, Copy)]
struct Reading {
    pub calls: u64,
    pub held: usize,
}

// What a session leaves: the bank's rows, and the number of its calls.
#[derive(Drop)]
pub struct SessionEnd {
    pub rows: [u64; STATE_SIZE],
    pub calls: u64,
}

// Moves the bytes from a place up to an end to the front, and counts them.
fn keep(input: &mut [u8], from: usize, end: usize) -> usize
    requires { (from ≤ end) × (end ≤ length input.old) }
    ensures { (input.new ≡ overwrite input.old 0 (drop from (take end input.old)))
        × (result ≡ length (drop from (take end input.old))) }
{
    input.copy_within(from..end, 0);
    end - from
}

// Reads into the input behind the bytes held, and counts what came: 0 at the end, and where the input is full.
fn read_in(rt: &impl Input, input: &mut [u8], held: usize) -> usize
    ensures { (result ≤ length input.old - held) × (take held input.new ≡ take held input.old) }
{
    if input.len() <= held {
        return 0;
    }
    rt.reader().read(&mut input[held..]).unwrap_or(0)
}

// One read: the records that are whole then are marked, and the rest is kept for the next. Tells whether another may
// follow: none where nothing came or no line could be written.
fn read_on(
    rt: &(impl Input + Print),
    t: &mut Reading,
    input: &mut [u8],
    output: &mut [u8],
    memory: &mut Memory,
    buffer: &mut [u8],
) -> bool
    requires { (t.old.held ≤ length input.old) × HasRoom input.old output.old × Clocked memory.old.rows }
    ensures { Clocked memory.new.rows
        × ReadFrom
        (reading_of t.old input.old
        (lent_of memory.old)
        buffer.old)
        t.new input.new
        (lent_of memory.new)
        buffer.new }
{
    let n = read_in(rt, input, t.held);
    let end = t.held + n;
    let m = mark(t.calls, &input[..end], output, memory, buffer);
    *t = Reading {
        calls: m.calls,
        held: keep(input, m.used, end),
    };
    n != 0 && rt.write_all(front(output, m.written)).is_ok()
}

// Reads on to the end of the input. Nothing says that an input ends, so there are no more reads than a number that no
// run uses up.
fn read_all(
    rt: &(impl Input + Print),
    input: &mut [u8],
    output: &mut [u8],
    memory: &mut Memory,
    buffer: &mut [u8],
) -> Reading
    requires { HasRoom input.old output.old × Clocked memory.old.rows }
    ensures { ReadFrom
        (started_with
        (lent_of memory.old)
        buffer.old)
        result input.new
        (lent_of memory.new)
        buffer.new
        × Clocked memory.new.rows }
{
    let mut t = Reading { calls: 0, held: 0 };
    for _ in 0..u64::MAX {
        if !read_on(rt, &mut t, input, output, memory, buffer) {
            break;
        }
    }
    t
}

// Prints the header.
fn print_header(rt: &impl Print, output: &mut [u8]) {
    let n = header(output);
    let _ = rt.write_all(front(output, n));
}

// Prints the bank's book.
fn print_book(rt: &impl Print, rows: &[u64], output: &mut [u8])
    requires { length rows.now ≡ state_size }
{
    let n = book(rows, output);
    let _ = rt.write_all(front(output, n));
}

// Reads all records, and prints, in lent memory. Apart from `session`, which has the arrays: here they are slices and a
// reference, and no goal writes them out.
fn print_all(
    rt: &(impl Input + Print),
    input: &mut [u8],
    output: &mut [u8],
    memory: &mut Memory,
    buffer: &mut [u8],
) -> Reading
    requires { HasRoom input.old output.old × Clocked memory.old.rows }
    ensures { ReadFrom
        (started_with
        (lent_of memory.old)
        buffer.old)
        result input.new
        (lent_of memory.new)
        buffer.new }
{
    print_header(rt, output);
    let t = read_all(rt, input, output, memory, buffer);
    print_book(rt, &memory.rows, output);
    t
}

// Reads all records, and prints, in memory of its own.
pub fn session(rt: &(impl Input + Print)) -> SessionEnd
    ensures { SessionOf result.rows result.calls }
{
    let mut input = [0u8; INPUT_BYTES];
    let mut output = [0u8; OUTPUT_BYTES];
    let mut memory = Memory {
        rows: [0; STATE_SIZE],
        orders: [0; STORE_BYTES],
        mailboxes: [0; STORE_BYTES],
    };
    let mut buffer = [0u8; REPLY_ROOM];
    let t = print_all(rt, &mut input, &mut output, &mut memory, &mut buffer);
    SessionEnd {
        rows: memory.rows,
        calls: t.calls,
    }
}
