// The calls on lines: one is made from a seed, and a message is put into one.
ghost use Rattle.std.specs.Prelude.{◌≡◌, true, List, ℕ, ◌<◌, length};
ghost use Rattle.bank_steps.specs.Lent.{Lent};
ghost use Rattle.unit_state.specs.Records.{line_of, is_line, line_count};
ghost use Rattle.unit_state.specs.declared.state.UnitState.{UnitState};
ghost use Rattle.unit_rows.specs.Lines.{lines_size, stores_bytes, lines_of};
ghost use Rattle.unit.specs.State.{memory, state_of};
ghost use Rattle.unit.specs.Call.{after_call, line_answer, out_answer, line_index, make_step, put_in_step};

use line::calls::{Delivery, MakeRefusal};
use number_table::table::WrongLength;
use unit_rows::lines::{is_made, make_at, put_at};
use unit_state::answer::Answer;
use unit_state::record::{
    Kind, LINE_BYTES, LINE_NUMBER_AT, SEED_AT, SEED_BYTES, body_of, number_at,
};

// What the answer of making a line says.
fn line_answer(answer: Result<(), MakeRefusal>) -> Answer
    ensures { result ≡ line_answer answer }
{
    match answer {
        Ok(()) => Answer::Line,
        Err(refusal) => Answer::Number(refusal.into()),
    }
}

// What the answer of putting a message in says.
fn out_answer(answer: Result<Delivery, WrongLength>) -> Answer
    ensures { result ≡ out_answer answer }
{
    match answer {
        Ok(Delivery { copies, held: None }) => Answer::Out(copies),
        Ok(
            Delivery {
                copies,
                held: Some(n),
            },
        ) => Answer::OutAndHeld(copies, n),
        Err(refusal) => Answer::Number(refusal.into()),
    }
}

// The index of the line that a record names.
fn line_index(record: &[u8]) -> usize
    requires { is_line (line_of «record».now) ≡ true }
    ensures { (result ≡ line_index «record».now) × (result < line_count) }
{
    (number_at(record, LINE_NUMBER_AT, LINE_BYTES) - 1) as usize
}

// The line that a record names is made from its seed.
pub(crate) fn make_call(record: &[u8], rows: &mut [u64], stores: &[u8]) -> Answer
    requires { (is_line (line_of «record».now) ≡ true) × (length rows.old ≡ lines_size)
        × (length stores.now ≡ stores_bytes) }
    ensures { (u : UnitState) (bank : Lent) (p f b room : List ℕ)
        → after_call u (memory bank p f b room (lines_of rows.new stores.now)) result
        ≡ make_step (state_of u (memory bank p f b room (lines_of rows.old stores.now)))
        «record».now }
{
    let i = line_index(record);
    let seed = number_at(record, SEED_AT, SEED_BYTES) as u32;
    let answer = make_at(rows, stores, i, seed);
    line_answer(answer)
}

// The record's message is put into the line that it names. To a line not made it is no call.
pub(crate) fn put_in_call(
    record: &[u8],
    rows: &mut [u64],
    stores: &mut [u8],
    buffer: &mut [u8],
) -> Answer
    requires { (is_line (line_of «record».now) ≡ true) × (length rows.old ≡ lines_size)
        × (length stores.old ≡ stores_bytes) }
    ensures { (u : UnitState) (bank : Lent) (p f room : List ℕ)
        → after_call u
        (memory bank p f buffer.new room (lines_of rows.new stores.new)) result
        ≡ put_in_step (state_of u
        (memory bank p f buffer.old room (lines_of rows.old stores.old)))
        «record».now }
{
    let i = line_index(record);
    if !is_made(rows, i) {
        return Answer::NoCall;
    }
    let answer = put_at(rows, stores, i, body_of(Kind::PutIn, record), buffer);
    out_answer(answer)
}
