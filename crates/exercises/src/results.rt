// Exercise C: a run's closing word beside what the bank has, whether the word is true of it, the bank's book, and the
// day on which each booked order is executed; and where every opening of a session ended.
ghost use Rattle.std.specs.Prelude.{◌<◌};

use crate::memory::{Bank, Memory};
use bank_rows::layout::STATE_SIZE;
use bank_rows::numbers::file_length;
use bank_rows::places::place_at;
use bank_session::report::count_openings;
use bank_state::limits::PLACE_COUNT;
use bank_state::search::is_booked;
use bank_state::state::Place;
use bank_state::store::file_of;
use calendar::value_day::value_day;
use client_run::run::{ClientRun, Stage, Word, order_name};
use exercise_texts::record::{content_of, example_text};
use exercise_texts::say::{order_number_text, say_closing, say_end};
use exercise_texts::script::RUN_COUNT;
use journal::event::{Event, Kind, RECORD_COUNT};
use message::directions::Direction;
use message::order_numbers::order_number_of;
use number_table::table::TooLate;
use octets::bytes::front;
use opening_counts::seven::Counts;
use print::book::{BOOK_ROOM, book};
use print::day::{DAY_ROOM, put_day};
use unit_rows::events::record_at;

// Whether a place holds the booked order of a client run.
fn is_order(p: Place, c: ClientRun) -> bool {
    is_booked(p.used) && p.subscriber == c.subscriber && order_number_of(p.number) == c.number
}

// The place of a client run's order, and how many bytes it has, if it is in the book.
fn find_order(numbers: &[u64; STATE_SIZE], c: ClientRun) -> Option<(usize, u64)> {
    for i in 0..PLACE_COUNT {
        let p = place_at(numbers, i);
        if is_order(p, c) {
            return Some((i, p.length));
        }
    }
    None
}

// Where the bank has a run's order.
#[derive(Clone, Copy, PartialEq, Eq)]
enum Keeping {
    Nowhere,
    Book,
    Mailbox,
}

// What the bank has of a run's order: where, how many bytes, and whether the order's bytes are in the book, or with the
// client.
#[derive(Clone, Copy)]
struct Holding {
    keeping: Keeping,
    length: u64,
    same: bool,
}

// What the book has of an upload.
fn book_has(bank: &Bank, c: ClientRun, payload: &[u8]) -> Holding {
    let numbers = bank.numbers();
    match find_order(&numbers, c) {
        None => Holding {
            keeping: Keeping::Nowhere,
            length: 0,
            same: false,
        },
        Some((i, length)) => Holding {
            keeping: Keeping::Book,
            length,
            same: file_of(&bank.orders, i, length) == payload,
        },
    }
}

// What the mailbox of a download has, and whether the run, whose file this is, holds the statement.
fn mailbox_has(bank: &Bank, c: ClientRun, statement: &[u8], file: &[u8]) -> Holding {
    let mailbox = (c.subscriber % (PLACE_COUNT as u64 + 1)) as usize;
    let length = match mailbox {
        0 => 0,
        _ => file_length(&bank.numbers(), mailbox - 1),
    };
    Holding {
        keeping: Keeping::Mailbox,
        length,
        same: file == statement,
    }
}

// What the bank has of the order of client run i, from 0 on.
fn bank_has(memory: &Memory, bank: &Bank, c: ClientRun, i: usize) -> Holding
    requires { i < 16 }
{
    let text = example_text();
    let content = content_of(&text, i as u8 + 1);
    match c.direction {
        Direction::Upload => book_has(bank, c, content),
        Direction::Download => mailbox_has(bank, c, content, file_of(&memory.files, i, c.length)),
    }
}

// Whether a closing word is true of what the bank has; "unclear" and "not fetched" say nothing of it.
fn is_true(w: Word, h: Holding) -> bool {
    match w {
        Word::Lodged | Word::HeldUnconfirmed => h.same,
        Word::NotLodged => h.keeping == Keeping::Nowhere,
        Word::Fetched => h.length == 0 && h.same,
        Word::Unclear | Word::NotFetched => true,
    }
}

// Prints the closing word, and says whether it is true; a run that has not ended has none.
fn say_word(rt: &impl Print, c: ClientRun, h: Holding) -> bool {
    if let Stage::Ended(w) = c.stage {
        say_closing(rt, w, order_name(c));
        return is_true(w, h);
    }
    let _ = print!(rt; "open");
    true
}

// Prints what the bank has of a run's order.
fn say_holding(rt: &impl Print, c: ClientRun, h: Holding) {
    let number = order_number_text(c.number);
    let _ = match h.keeping {
        Keeping::Nowhere => print!(rt; "; book nothing"),
        Keeping::Book => print!(rt; "; book {} FUL {number}, {} bytes", c.subscriber, h.length),
        Keeping::Mailbox => print!(rt; "; mailbox {}, {} bytes", c.subscriber, h.length),
    };
}

// The row of client run i, from 0 on.
fn say_run(rt: &impl Print, memory: &Memory, bank: &Bank, i: usize)
    requires { i < 16 }
{
    let c = memory.run(i);
    let h = bank_has(memory, bank, c, i);
    let direction = match c.direction {
        Direction::Upload => "upload",
        Direction::Download => "download",
    };
    let _ = print!(rt; "client {}, {direction}: ", i + 1);
    let is_true = say_word(rt, c, h);
    say_holding(rt, c, h);
    let _ = println!(rt; "; {is_true}");
}

// The rows of the client runs from one on, counted from 0.
pub(crate) fn say_results(rt: &impl Print, first: usize, memory: &Memory, bank: &Bank) {
    for i in first..RUN_COUNT {
        say_run(rt, memory, bank, i);
    }
}

// The rows of the runs that were handed the journal: client runs 4 and 6.
pub(crate) fn say_handed(rt: &impl Print, memory: &Memory, bank: &Bank) {
    say_run(rt, memory, bank, 3);
    say_run(rt, memory, bank, 5);
}

// The bank's book.
pub(crate) fn say_book(rt: &impl Print, bank: &Bank) {
    let mut output = [0u8; BOOK_ROOM];
    let n = book(&bank.numbers(), &mut output);
    let _ = rt.write_all(front(&output, n));
}

// Prints the value day of a booking time, or its number.
fn say_day(rt: &impl Print, time: u64) {
    match value_day(time) {
        Ok(date) => {
            let mut text = [0u8; DAY_ROOM];
            put_day(&mut text, 0, date);
            let _ = rt.write_all(&text);
        }
        Err(TooLate) => {
            let _ = print!(rt; "number 10");
        }
    }
}

// The row of a booked order, by its booking event, whose clock is the booking time.
fn say_booking(rt: &impl Print, e: Event) {
    let number = order_number_text(order_number_of(e.order));
    let _ = print!(rt; "{} FUL {number} is executed on ", e.subscriber);
    say_day(rt, e.clock);
    say_end(rt);
}

// The day on which each booked order is executed.
pub(crate) fn say_days(rt: &impl Print, memory: &Memory) {
    for i in 0..RECORD_COUNT {
        let e = record_at(&memory.row, i);
        if let Kind::Booked = e.kind {
            say_booking(rt, e);
        }
    }
}

// The seven counts, and their sum, the largest number where 64 bits do not hold it.
fn say_seven(rt: &impl Print, c: Counts) {
    let sum = c
        .pending
        .saturating_add(c.booked)
        .saturating_add(c.fetched)
        .saturating_add(c.skipped)
        .saturating_add(c.ended)
        .saturating_add(c.cancelled)
        .saturating_add(c.dropped);
    let _ = print!(rt;
        "openings: {} open, {} booked, {} fetched, ",
        c.pending, c.booked, c.fetched
    );
    let _ = print!(rt;
        "{} skipped, {} ended by another receipt, ",
        c.skipped, c.ended
    );
    let _ = println!(rt;
        "{} cancelled, {} dropped; {sum} in all",
        c.cancelled, c.dropped
    );
}

// Where every opening of a session ended, as the session's call says.
pub(crate) fn say_counts(rt: &impl Print, bank: &Bank) {
    if let Ok(c) = count_openings(&bank.rows) {
        say_seven(rt, c);
    }
}
