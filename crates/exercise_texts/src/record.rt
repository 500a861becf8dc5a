// The record of a move, and the messages under way: the last request, the bank's last reply, a request held back, the
// request whose second copy is still to come, and a late reply.
use crate::script::{MOVES_C, Move, SIGNINGS, byte_at, order_of, signature_of, terms_of};
use bank_state::limits::{ID_BYTES, IDLE_LIMIT, REPLY_ROOM};
use frame_table::fields::Bits128;
use frame_writer::writer::write;
use message::order_numbers::order_number_of;
use message::requests::signing;
use octets::bytes::{behind, copy, front};
use print::text::put_digits;
use unit_state::answer::Answer;
use unit_state::record::{
    BANK_TIME_AT, EDITION_AT, EDITION_BYTES, EXTENT_AT, EXTENT_BYTES, FIRST_AT, FIRST_BYTES,
    IDS_AT, LETTER_BYTES, MAILBOX_AT, MAILBOX_BYTES, ORDER_AT, ORDER_BYTES, ROOM_BYTES, RUN_BYTES,
    SUBSCRIBER_AT, SUBSCRIBER_BYTES, TIME_AT, TIME_BYTES, UPLOAD_HEAD, lent_length,
};

// Thursday 28 March 2024, 15:59:26, the last business day before Easter, in milliseconds. Each move comes a second
// after the one before it, the first a second after that time, and the 34th at 16:00.
const TIME: u64 = 1711641566000;

const SECOND: u64 = 1000;

// So much later an idle transaction is gone.
const HOUR: u64 = IDLE_LIMIT + 1;

// The text of which the orders' bytes are parts.
const TEXT_BYTES: usize = 1024;

// The bytes of the longest record: an upload's head, and the longest payload.
pub const RECORD_BYTES: usize = UPLOAD_HEAD + 700;

// The places of a record's body, before which its length stands: of a frame to the bank, of an upload's begin, and of a
// call to a run.
const FRAME_AT: usize = IDS_AT + ID_BYTES;

const BEGIN_AT: usize = ORDER_AT + ORDER_BYTES;

const CALL_AT: usize = SUBSCRIBER_AT;

// The places of the messages in the lent array that holds them all: each is its length in two bytes, and its bytes.
// After them the record that takes up the image, but for its letter.
const REQUEST_AT: usize = 0;

const REPLY_AT: usize = REQUEST_AT + 2 + REPLY_ROOM;

const COPY_AT: usize = REPLY_AT + 2 + REPLY_ROOM;

const SENT_AT: usize = COPY_AT + 2 + REPLY_ROOM;

const LATE_AT: usize = SENT_AT + 2 + REPLY_ROOM;

const IMAGE_AT: usize = LATE_AT + 2 + REPLY_ROOM;

pub const MAIL_BYTES: usize = IMAGE_AT + LETTER_BYTES + EXTENT_BYTES;

// Bytes that differ from their neighbours, so that a misplaced part shows.
pub fn example_text() -> [u8; TEXT_BYTES] {
    let mut text = [0u8; TEXT_BYTES];
    for (i, b) in text.iter_mut().enumerate() {
        *b = (i % 251) as u8;
    }
    text
}

// The bytes of a run's order, its payload or its statement, as a part of the text.
pub fn content_of(text: &[u8], run: u8) -> &[u8] {
    let o = order_of(run);
    front(behind(text, usize::from(run)), usize::from(o.bytes))
}

// Writes a number of w bytes, where it has room.
fn put_number(record: &mut [u8], at: usize, w: usize, x: u64) {
    if w <= record.len() && at <= record.len() - w {
        put_digits(record, at, 256, 0, w, x);
    }
}

// Writes bytes and, before them, their length of two bytes, where they have room.
fn put_body(record: &mut [u8], at: usize, body: &[u8]) {
    if record.len() < 2 {
        return;
    }
    let room = record.len() - 2;
    if body.len() <= room && at <= room - body.len() {
        put_number(record, at, 2, body.len() as u64);
        copy(record, at + 2, body);
    }
}

// The bytes that stand at a place after their length.
fn body_at(s: &[u8], at: usize) -> &[u8] {
    let b = behind(s, at);
    let size = usize::from(byte_at(b, 0)) * 256 + usize::from(byte_at(b, 1));
    front(behind(b, 2), size)
}

// The time of a move; there are fewer than a thousand. Those after exercise C come over an hour later too, as exercise
// D's clock is that of the late copy.
fn time_of(m: Move) -> u64 {
    let time = TIME + SECOND * (m.number % 1000);
    if m.hour == b'H' || u64::from(MOVES_C) < m.number {
        return time + HOUR;
    }
    time
}

// The bytes of the image room that a move lends.
fn image_of(mail: &[u8], letter: u8) -> u64 {
    if letter == b'T' {
        return lent_length(behind(mail, IMAGE_AT)) as u64;
    }
    ROOM_BYTES as u64
}

// Writes the letter with which a move's record begins, and the w bytes of what it names, where both have room.
fn put_name(record: &mut [u8], m: Move, w: usize, name: u64) {
    if w < record.len() {
        put_number(record, 0, LETTER_BYTES, u64::from(letter_of(m.letter)));
        put_number(record, LETTER_BYTES, w, name);
    }
}

// Writes a call to a run but for its body: the letter, the run, and the time of the call.
fn put_call(record: &mut [u8], m: Move) {
    put_name(record, m, RUN_BYTES, u64::from(m.run));
    put_number(record, TIME_AT, TIME_BYTES, time_of(m));
}

// Writes a subscriber and a first exchange number in their places of a begin, where both have room.
fn put_order(record: &mut [u8], subscriber: u64, first: u64) {
    if FIRST_AT + FIRST_BYTES <= record.len() {
        put_number(record, SUBSCRIBER_AT, SUBSCRIBER_BYTES, subscriber);
        put_number(record, FIRST_AT, FIRST_BYTES, first);
    }
}

// Writes what a run is told at begin; its first exchange number is its number in hundreds. The nonce bytes stay as they
// are in the record, 0 in a fresh one.
fn put_begin(record: &mut [u8], m: Move) {
    put_call(record, m);
    let subscriber = u64::from(order_of(m.run).subscriber);
    put_order(record, subscriber, u64::from(m.run) * 100);
    if m.letter == b'U' {
        let t = terms_of(m.run);
        put_number(record, EDITION_AT, EDITION_BYTES, t.edition);
        put_number(record, ORDER_AT, ORDER_BYTES, t.number);
    }
}

// Writes what stands before the body of a move's record, and gives the body's place. The session is put away into the
// whole image room, and taken up from this many bytes of it.
fn put_head(record: &mut [u8], m: Move, image: u64) -> usize {
    match m.letter {
        b'M' => {
            let mailbox = u64::from(order_of(m.run).subscriber);
            put_name(record, m, MAILBOX_BYTES, mailbox);
            MAILBOX_AT + MAILBOX_BYTES
        }
        b'F' | b'G' => {
            put_name(record, m, 0, 0);
            put_number(record, BANK_TIME_AT, TIME_BYTES, time_of(m));
            FRAME_AT
        }
        b'P' | b'T' => {
            put_name(record, m, 0, 0);
            put_number(record, EXTENT_AT, EXTENT_BYTES, image);
            EXTENT_AT + EXTENT_BYTES
        }
        b'U' | b'D' => {
            put_begin(record, m);
            BEGIN_AT
        }
        _ => {
            put_call(record, m);
            CALL_AT
        }
    }
}

// The letter with which the record of a move begins: a signing goes to the bank as a request does.
fn letter_of(letter: u8) -> u8 {
    if letter == b'G' { b'F' } else { letter }
}

// Writes the record of a move, whose body this is. Where a begin's order would stand, every record with room for it
// gets zeros first, so that these of the bank's ID bytes are 0. A message that is lost or that a line holds, and the
// reply to a signing, which no client run waits for, make no call: their record is empty.
fn put_record(record: &mut [u8], m: Move, image: u64, body: &[u8]) {
    if matches!(m.fate, b'x' | b'r') || m.letter == b'Q' {
        return;
    }
    put_order(record, 0, 0);
    let at = put_head(record, m, image);
    put_body(record, at, body);
}

// The place of the message of a move with this letter and this fate.
fn place_of(letter: u8, fate: u8) -> usize {
    match (letter, fate) {
        (b'R' | b'Q', b'l') => LATE_AT,
        (b'R' | b'Q', _) => REPLY_AT,
        (_, b'l') => COPY_AT,
        (_, b't') => SENT_AT,
        _ => REQUEST_AT,
    }
}

// The message of a move with this letter and this fate.
pub fn message_of(mail: &[u8], letter: u8, fate: u8) -> &[u8] {
    body_at(mail, place_of(letter, fate))
}

// Keeps a message that comes out of a line late, for its move with this letter.
pub fn keep_late(mail: &mut [u8], letter: u8, message: &[u8]) {
    put_body(mail, place_of(letter, b'l'), message);
}

// Writes the record of a move: its body is the content of an order, or a message. What follows a record without one is
// not read.
pub fn put_move(record: &mut [u8], m: Move, mail: &[u8]) {
    let image = image_of(mail, m.letter);
    match m.letter {
        b'F' | b'G' | b'R' => put_record(record, m, image, message_of(mail, m.letter, m.fate)),
        _ => put_record(record, m, image, content_of(&example_text(), m.run)),
    }
}

// Writes the request of a signing, as the subscriber sends it at the time of its move.
pub fn put_signing(mail: &mut [u8], m: Move) {
    if m.letter != b'G' {
        return;
    }
    let s = signature_of(m.run);
    let nonce = Bits128 {
        high: 0,
        low: s.nonce,
    };
    let fields = signing(
        s.subscriber,
        SIGNINGS + u64::from(m.run),
        nonce,
        time_of(m),
        order_number_of(s.number),
        s.owner,
    );
    let mut frame = [0u8; REPLY_ROOM];
    if let Ok(n) = write(fields, &[], &mut frame) {
        put_body(mail, REQUEST_AT, front(&frame, n));
    }
}

// Keeps the reply or the request that a call wrote into the buffer, or the length of an image.
fn keep_written(mail: &mut [u8], answer: Answer, buffer: &[u8]) {
    match answer {
        Answer::Frame(n) => put_body(mail, REPLY_AT, front(buffer, n)),
        Answer::Request(n) => put_body(mail, REQUEST_AT, front(buffer, n)),
        Answer::Away(n) => put_number(mail, IMAGE_AT + LETTER_BYTES, EXTENT_BYTES, n as u64),
        _ => (),
    }
}

// Keeps a copy of the request in a record, where it is held back, and where a second copy may come out of its line.
fn hold_back(mail: &mut [u8], fate: u8, record: &[u8]) {
    match fate {
        b'c' => put_body(mail, COPY_AT, body_at(record, FRAME_AT)),
        b'p' => put_body(mail, SENT_AT, body_at(record, FRAME_AT)),
        _ => (),
    }
}

// Keeps what a move leaves: its request, where a copy of it is still to come, and what its call wrote.
pub fn keep(mail: &mut [u8], fate: u8, record: &[u8], answer: Answer, buffer: &[u8]) {
    hold_back(mail, fate, record);
    keep_written(mail, answer, buffer);
}
