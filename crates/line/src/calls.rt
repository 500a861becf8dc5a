// The two calls: a line is made from a seed, and a message is put into it. Where a call is given a number, nothing has
// changed.
ghost use Rattle.std.specs.Prelude.{Ok, ◌≡◌, ◌≤◌, length, get_or, set, replicate};
ghost use Rattle.line.specs.Generator.{moved};
ghost use Rattle.line.specs.Line.{message_bytes, delivered, carried_out, decided};
ghost use Rattle.line.specs.Memory.{value_at, store_bytes, line_of, Laid};
ghost use Rattle.line.specs.Calls.{make_refusal_number, make_call_of, make_call, put_call_of, put_left, is_fit, put_call};

use crate::decision::{Decision, decide};
use crate::generator::moved;
use crate::layout::{COUNT_AT, MESSAGE_BYTES, ROW_SIZE, STORE_BYTES, VALUE_AT};
use crate::memory::{hold, is_line, release};
use number_table::table::{SEED_ZERO, WRONG_LENGTH, WrongLength};

// Why no line is made: number 1, for a lent length, or number 11, for seed 0.
#[derive(Clone, Copy, Debug, PartialEq, Eq)]
pub enum MakeRefusal {
    WrongLength,
    SeedZero,
}

impl From<MakeRefusal> for u64 {
    ghost from_gives = { λ r n. n ≡ make_refusal_number r };

    fn from(refusal: MakeRefusal) -> u64 {
        match refusal {
            MakeRefusal::WrongLength => WRONG_LENGTH,
            MakeRefusal::SeedZero => SEED_ZERO,
        }
    }
}

// What comes out where a message is put in: so many copies of it and, after them, the message held longest, of this
// length, where one does.
#[derive(Clone, Copy, PartialEq, Eq)]
pub struct Delivery {
    pub copies: u64,
    pub held: Option<usize>,
}

// Writes zeros over the row.
fn clear(row: &mut [u64])
    ensures { row.new ≡ replicate (length row.old) 0 }
{
    row.fill(0);
}

// A line is made from a seed; the store is lent for its length, and nothing in it changes.
#[tactic(auto, unfolding(crate::specs::Calls::make_call, crate::specs::Memory::row_of))]
pub fn make_line(row: &mut [u64], store: &[u8], seed: u32) -> Result<(), MakeRefusal>
    ensures { make_call_of result row.new ≡ make_call row.old store.now seed }
{
    if row.len() != ROW_SIZE || store.len() != STORE_BYTES {
        return Err(MakeRefusal::WrongLength);
    }
    if seed == 0 {
        return Err(MakeRefusal::SeedZero);
    }
    clear(row);
    row[VALUE_AT] = u64::from(seed);
    Ok(())
}

// Whether a message of this length is taken, with this row and a store and a buffer of these lengths.
#[tactic(auto, unfolding(crate::specs::Calls::is_fit))]
fn is_fit(row: &[u64], store: usize, message: usize, out: usize) -> bool
    ensures { result ≡ is_fit row.now store message out }
{
    is_line(row) && store == STORE_BYTES && message <= MESSAGE_BYTES && MESSAGE_BYTES <= out
}

// The generator moves once; its value is given back.
fn step(row: &mut [u64]) -> u32
    requires { Laid row.old }
    ensures { (result ≡ moved (get_or row.old value_at 0)) × (row.new ≡ set row.old value_at result) }
{
    let value = moved(row[VALUE_AT] as u32);
    row[VALUE_AT] = u64::from(value);
    value
}

// Copies come out, and after them the message held longest.
fn deliver(row: &mut [u64], store: &mut [u8], out: &mut [u8], copies: u64) -> Delivery
    requires { Laid row.old × (length store.old ≡ store_bytes) × (message_bytes ≤ length out.old) }
    ensures { put_call_of (Ok result) row.new store.new out.new
        ≡ put_left (delivered copies (line_of row.old store.old))
        store.old out.old }
{
    if row[COUNT_AT] == 0 {
        return Delivery { copies, held: None };
    }
    let n = release(row, store, out);
    Delivery {
        copies,
        held: Some(n),
    }
}

// Nothing comes out.
const NOTHING: Delivery = Delivery {
    copies: 0,
    held: None,
};

// What was decided is carried out.
fn carry_out(
    decision: Decision,
    row: &mut [u64],
    store: &mut [u8],
    message: &[u8],
    out: &mut [u8],
) -> Delivery
    requires { Laid row.old × (length store.old ≡ store_bytes) × (length message.now ≤ message_bytes)
        × (message_bytes ≤ length out.old) × (decision ≡ decided (line_of row.old store.old)) }
    ensures { put_call_of (Ok result) row.new store.new out.new
        ≡ put_left (carried_out decision (line_of row.old store.old) message.now)
        store.old out.old }
{
    match decision {
        Decision::Lose => NOTHING,
        Decision::Hold => {
            hold(row, store, message);
            NOTHING
        }
        Decision::Deliver(copies) => deliver(row, store, out, copies),
    }
}

// A message is put in; the buffer is lent for a held message that comes out. Number 1 is for a lent length, a message
// over 1,024 bytes, or numbers that no call leaves.
pub fn put_in(
    row: &mut [u64],
    store: &mut [u8],
    message: &[u8],
    out: &mut [u8],
) -> Result<Delivery, WrongLength>
    ensures { put_call_of result row.new store.new out.new
        ≡ put_call row.old store.old message.now out.old }
{
    if !is_fit(row, store.len(), message.len(), out.len()) {
        return Err(WrongLength);
    }
    let value = step(row);
    let decision = decide(value, row[COUNT_AT] as usize);
    Ok(carry_out(decision, row, store, message, out))
}
