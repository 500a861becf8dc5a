// The course of exercise B over lines: client run after client run, each with two fresh lines, one for its requests and
// one for the replies to them. What comes out of a line is handed on at once, in its order: each reply to the client
// run before the next request to the bank. What the run then wants to send is put in after that, and where it has
// nothing to send it is told that no reply came.
use crate::fates::{Fates, put_message};
use exercise_texts::record::MAIL_BYTES;
use exercise_texts::script::{FIRST_OF_B, MOVES, Move, RUN_COUNT, SEED, first_letter};
use line::calls::make_line;
use line::layout::{ROW_SIZE, STORE_BYTES};
use unit_state::answer::Answer;

// More moves than there can be, whatever the seed: the four runs issue at most 69 requests (document 01: 6N + 1 for an
// upload of N segments, 6N + 6 for a download), a message makes two moves at most, and so at most 138 requests and 276
// replies move; no reply comes at most 69 times, and five moves begin the orders.
pub const LINE_MOVES: u16 = 500;

// Where the play stands: the client run, the letter and the fate of the next move, whether its request repeats one,
// whether the run has issued a request that is still to be put in, whether it has closed, and what is still to come of
// the request and of the reply put in last.
#[derive(Clone, Copy)]
pub struct Course {
    pub run: u8,
    pub letter: u8,
    pub fate: u8,
    pub repeated: bool,
    pub issued: bool,
    pub closed: bool,
    pub requests: Fates,
    pub replies: Fates,
}

// Whether all runs have closed.
pub fn is_over(c: Course) -> bool {
    RUN_COUNT < usize::from(c.run)
}

// Move i of the play, from 0 on, as the course has it.
pub fn move_of(c: Course, i: u16) -> Move {
    Move {
        number: u64::from(MOVES) + u64::from(i) + 1,
        letter: c.letter,
        run: c.run % 16,
        fate: c.fate,
        hour: b' ',
        repeated: c.letter == b'F' && c.repeated && c.fate != b'l',
    }
}

// A client run's order begins, with two fresh lines.
fn begin(
    run: u8,
    there: &mut [u64; ROW_SIZE],
    there_store: &[u8; STORE_BYTES],
    back: &mut [u64; ROW_SIZE],
    back_store: &[u8; STORE_BYTES],
) -> Course {
    let seed = SEED + 2 * u32::from(run);
    let _ = make_line(there, there_store, seed - 1);
    let _ = make_line(back, back_store, seed);
    Course {
        run,
        letter: first_letter(run),
        fate: b' ',
        repeated: false,
        issued: false,
        closed: false,
        requests: Fates::none(),
        replies: Fates::none(),
    }
}

// The first order begins.
pub fn first_course(
    there: &mut [u64; ROW_SIZE],
    there_store: &[u8; STORE_BYTES],
    back: &mut [u64; ROW_SIZE],
    back_store: &[u8; STORE_BYTES],
) -> Course {
    begin(FIRST_OF_B, there, there_store, back, back_store)
}

// The course with what a client run answered.
fn noted(c: Course, answer: Answer) -> Course {
    match answer {
        Answer::Request(_) => Course { issued: true, ..c },
        Answer::Closed(_, _) => Course { closed: true, ..c },
        _ => c,
    }
}

// The course with this move next.
fn with_move(c: Course, letter: u8, fate: u8) -> Course {
    Course { letter, fate, ..c }
}

// The next of the replies' moves, if one is left, else the next of the requests' moves.
fn next_move(c: Course) -> Option<Course> {
    if let Some(fate) = c.replies.next() {
        let replies = c.replies.later();
        return Some(with_move(Course { replies, ..c }, b'R', fate));
    }
    let fate = c.requests.next()?;
    let requests = c.requests.later();
    Some(with_move(Course { requests, ..c }, b'F', fate))
}

// The request that the run has issued is put into its line; it repeats one where no reply came before it.
fn send(
    c: Course,
    mail: &mut [u8; MAIL_BYTES],
    there: &mut [u64; ROW_SIZE],
    there_store: &mut [u8; STORE_BYTES],
) -> Course {
    Course {
        requests: put_message(b'F', mail, there, there_store),
        issued: false,
        repeated: c.letter == b'N',
        ..c
    }
}

// Where nothing is under way: the statement is in its mailbox and its download begins, or no reply came.
fn idle_move(c: Course) -> Course {
    if c.letter == b'M' {
        return with_move(c, b'D', b' ');
    }
    with_move(c, b'N', b' ')
}

// The next move, once the last one is noted.
fn go_on(
    c: Course,
    mail: &mut [u8; MAIL_BYTES],
    there: &mut [u64; ROW_SIZE],
    there_store: &mut [u8; STORE_BYTES],
    back: &mut [u64; ROW_SIZE],
    back_store: &[u8; STORE_BYTES],
) -> Course {
    if let Some(next) = next_move(c) {
        return next;
    }
    if c.closed {
        return begin(c.run % 16 + 1, there, there_store, back, back_store);
    }
    if c.issued {
        let sent = send(c, mail, there, there_store);
        return next_move(sent).unwrap_or(sent);
    }
    idle_move(c)
}

// The course with the reply by which the bank has answered put into its line.
fn with_reply(
    c: Course,
    answer: Answer,
    mail: &mut [u8; MAIL_BYTES],
    back: &mut [u64; ROW_SIZE],
    back_store: &mut [u8; STORE_BYTES],
) -> Course {
    if let Answer::Frame(_) = answer {
        let replies = put_message(b'R', mail, back, back_store);
        return Course { replies, ..c };
    }
    c
}

// The course after its move has made this answer.
pub fn next_course(
    c: Course,
    answer: Answer,
    mail: &mut [u8; MAIL_BYTES],
    there: &mut [u64; ROW_SIZE],
    there_store: &mut [u8; STORE_BYTES],
    back: &mut [u64; ROW_SIZE],
    back_store: &mut [u8; STORE_BYTES],
) -> Course {
    let d = with_reply(noted(c, answer), answer, mail, back, back_store);
    go_on(d, mail, there, there_store, back, back_store)
}
