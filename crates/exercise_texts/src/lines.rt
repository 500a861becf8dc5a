// The line of a move: call, who to whom, what the frame says, repeated, what became of the message, and what the call
// answered.
use crate::say::{VALUES, reply_code, say, say_closing, say_end, say_name, say_reply, say_request};
use crate::script::{Move, order_of, signature_of};
use frame_reader::reader::{read_reply, read_request};
use frame_table::fields::Fields;
use frame_table::table::Form;
use unit_state::answer::Answer;

// Prints what a frame says.
fn say_form(rt: &impl Print, q: Fields, v: [u64; VALUES]) {
    match q.form() {
        Form::NoForm => say(rt, b'6', v),
        Form::Request(request) => say_request(rt, request, v),
        Form::Reply(reply) => say_reply(rt, reply, reply_code(q.return_code()), v),
    }
}

// Whether the message of a move with this letter is a reply, and whether a move has a message at all.
fn is_reply(letter: u8) -> bool {
    matches!(letter, b'R' | b'Q')
}

fn has_message(letter: u8) -> bool {
    is_reply(letter) || matches!(letter, b'F' | b'G')
}

// Prints what the message of a move says, and whether it repeats one.
fn say_message(rt: &impl Print, m: Move, q: Fields, v: [u64; VALUES]) {
    say_form(rt, q, v);
    if is_reply(m.letter) {
        say(rt, b'C', v);
        say_name(rt, q.return_code());
    }
    say(rt, b'E', v);
    if m.repeated {
        say(rt, b'A', v);
    }
}

// Prints what the call answered, but for a message, whose own line follows.
fn say_answer(rt: &impl Print, answer: Answer, v: [u64; VALUES]) {
    match answer {
        Answer::Ignored => say(rt, b'i', v),
        Answer::Unchanged => say(rt, b'q', v),
        Answer::Closed(word, order) => {
            say(rt, b'w', v);
            say_closing(rt, word, order);
        }
        Answer::Number(n) => say(rt, b'n', [n; VALUES]),
        _ => (),
    }
}

// What the frame of a move says.
fn fields_of(letter: u8, frame: &[u8]) -> Fields {
    if is_reply(letter) {
        return read_reply(frame);
    }
    read_request(frame)
}

// The values of a move's line: of a signing and its reply the owner that the frame names and who signs it, of others
// the client run with its order's subscriber and bytes; and what the frame says.
fn values_of(m: Move, q: Fields) -> [u64; VALUES] {
    let [run, subscriber, bytes] = match m.letter {
        b'G' | b'Q' => [q.owner(), signature_of(m.run).subscriber, 0],
        _ => {
            let o = order_of(m.run);
            [
                u64::from(m.run),
                u64::from(o.subscriber),
                u64::from(o.bytes),
            ]
        }
    };
    [
        m.number,
        run,
        subscriber,
        bytes,
        q.segment(),
        q.segments(),
        q.exchange(),
        q.order_number(),
        q.return_code(),
        q.last_mark(),
    ]
}

// Prints the line of a move that made this answer.
pub fn say_line(rt: &impl Print, m: Move, frame: &[u8], answer: Answer) {
    let q = fields_of(m.letter, frame);
    let v = values_of(m, q);
    say(rt, m.letter, v);
    if has_message(m.letter) {
        say_message(rt, m, q, v);
    }
    say(rt, m.fate, v);
    say(rt, m.hour, v);
    say_answer(rt, answer, v);
    say_end(rt);
}
