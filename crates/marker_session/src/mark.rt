// Marking: the calls of a part of the input, and their lines in a lent output.
ghost use Rattle.std.specs.Prelude.{◌≡◌, true, ◌+◌, ◌≤◌, length, drop};
ghost use Rattle.marker_session.specs.Lines.{line_room};
ghost use Rattle.marker_session.specs.Memory.{lent_of};
ghost use Rattle.marker_session.specs.Marking.{is_ready, marker_state, state_of, print_of, marked_next, marked_all};
ghost use Rattle.marker_session.specs.Marking.{Clocked};

use crate::line::{LINE_ROOM, put_line};
use crate::memory::Memory;
use crate::record::{HEAD_BYTES, frame_in, is_whole, size_of, time_of};
use bank::call::answer_request;
use bank_rows::numbers::clock;
use bank_state::limits::ID_BYTES;
use frame_reader::reader::{data_at, read_whole_request};
use octets::bytes::behind;

// The calls that can be counted.
const MAX_CALLS: u64 = u64::MAX;

// Between two calls: the calls so far, the input bytes used, the output bytes written.
#[derive(Clone, Copy)]
pub struct Marked {
    pub calls: u64,
    pub used: usize,
    pub written: usize,
}

// Whether a call can be counted, and a whole record stands at the place reached.
fn is_ready(input: &[u8], calls: u64, used: usize) -> bool
    ensures { result ≡ is_ready calls (drop used input.now) }
{
    calls < MAX_CALLS && is_whole(behind(input, used))
}

// One call, and its line.
fn mark_call(
    m: Marked,
    input: &[u8],
    output: &mut [u8],
    memory: &mut Memory,
    buffer: &mut [u8],
) -> Marked
    requires { (is_ready m.calls (drop m.used input.now) ≡ true) × (m.written + line_room ≤ length output.old)
        × Clocked memory.old.rows }
    ensures { (print_of result input.now
        (lent_of memory.new)
        buffer.new output.new
        ≡ marked_next m.written
        (state_of m input.now
        (lent_of memory.old)
        buffer.old)
        output.old)
        × (result.used ≤ length input.now)
        × Clocked memory.new.rows }
{
    let rest = behind(input, m.used);
    let frame = frame_in(rest);
    let ids = [0u8; ID_BYTES];
    let p = read_whole_request(frame);
    let q = p.fields;
    let bytes = data_at(frame, p.from, p.end);
    let step = answer_request(
        &mut memory.rows,
        time_of(rest),
        &ids,
        q,
        bytes,
        &mut memory.orders,
        &mut memory.mailboxes,
        buffer,
    );
    let o = step.out;
    let calls = m.calls + 1;
    let written = put_line(
        output,
        m.written,
        calls,
        o.answer,
        o.code,
        q,
        clock(&memory.rows),
    );
    Marked {
        calls,
        used: m.used + HEAD_BYTES + size_of(rest),
        written,
    }
}

// The calls of the whole records of the input, as many as the output has room for lines; no more than the input is
// used.
pub(crate) fn mark(
    calls: u64,
    input: &[u8],
    output: &mut [u8],
    memory: &mut Memory,
    buffer: &mut [u8],
) -> Marked
    requires { Clocked memory.old.rows }
    ensures { (print_of result input.now
        (lent_of memory.new)
        buffer.new output.new
        ≡ marked_all
        (marker_state calls input.now
        (lent_of memory.old)
        buffer.old)
        output.old)
        × (result.used ≤ length input.now)
        × Clocked memory.new.rows }
{
    let mut m = Marked {
        calls,
        used: 0,
        written: 0,
    };
    for _ in 0..output.len() / LINE_ROOM {
        if !is_ready(input, m.calls, m.used) {
            break;
        }
        m = mark_call(m, input, output, memory, buffer);
    }
    m
}
