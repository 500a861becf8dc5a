// The script: the order of each client run, the signings, the moves one by one, and the seed of exercise B over lines.
use message::order_numbers::order_number_of;
use octets::bytes::behind;

// The client runs, numbered from 1.
pub const RUN_COUNT: usize = 6;

// An order: its subscriber, and the bytes of its payload or of its statement.
#[derive(Clone, Copy)]
pub struct Order {
    pub subscriber: u16,
    pub bytes: u16,
}

// The order of a client run; that of the first where there is no such run.
pub fn order_of(run: u8) -> Order {
    let (subscriber, bytes) = match run {
        2 => (2, 300),
        4 => (3, 300),
        5 => (2, 600),
        6 => (4, 300),
        _ => (1, 700),
    };
    Order { subscriber, bytes }
}

// What an upload run is told at begin, as its record has it: its edition, 1 for 2.4 and 0 for 2.5, and the order number
// that it brings in 2.4.
#[derive(Clone, Copy)]
pub struct Terms {
    pub edition: u64,
    pub number: u64,
}

// The first run is of edition 2.4 and brings A000, which the bank then passes over for its subscriber; the others leave
// the number to the bank.
pub fn terms_of(run: u8) -> Terms {
    if run == 1 {
        return Terms {
            edition: 1,
            number: order_number_of(0),
        };
    }
    Terms {
        edition: 0,
        number: 0,
    }
}

// The client runs whose orders are exercise B's: this one and those after it.
pub const FIRST_OF_B: u8 = 3;

// The letter with which an order of exercise B begins; a statement is put into its mailbox first.
pub fn first_letter(run: u8) -> u8 {
    if run == 5 {
        return b'M';
    }
    b'U'
}

// The seed of exercise B over lines, the one number from which all its lines follow: client run r's requests go over
// line 2r - 1 and the replies to them over line 2r, and a line's seed is this number and its own.
pub const SEED: u32 = 7;

// A signing: the subscriber who signs, the order by its owner and its number in the owner's series, and the exchange
// number whose nonce it has, as a client run has that of its own.
#[derive(Clone, Copy)]
pub struct Signature {
    pub subscriber: u64,
    pub owner: u64,
    pub number: u64,
    pub nonce: u64,
}

// The exchange number of a signing is this and its own number.
pub const SIGNINGS: u64 = 700;

// A signing, numbered from 1: of the owner, of another subscriber, of that one again, of an order that is not in the
// book, and of a third subscriber with the second signing's nonce.
pub fn signature_of(n: u8) -> Signature {
    let second = Signature {
        subscriber: 2,
        owner: 1,
        number: 0,
        nonce: SIGNINGS + u64::from(n),
    };
    match n {
        1 => Signature {
            subscriber: 1,
            ..second
        },
        4 => Signature {
            number: 2,
            ..second
        },
        5 => Signature {
            subscriber: 3,
            nonce: SIGNINGS + 2,
            ..second
        },
        _ => second,
    }
}

// The moves of exercise A, of the first day (A and half of B: a download is open, and a reply was lost), of A and B
// together, of A to C, and of all four.
pub const MOVES_A: u8 = 17;

pub const MOVES_DAY: u8 = 52;

pub const MOVES_B: u8 = 79;

pub const MOVES_C: u8 = MOVES_B + 2;

pub const MOVES: u8 = MOVES_C + 10;

// A move has four bytes: the letter of its record (M a file for a mailbox, U or D a run begins, F its request, R the
// bank's reply, N no reply came, J the journal is handed to it, P the session is put away, T it is taken up, G a
// signing, Q the bank's reply to it, which makes no call), its client run or signing, what becomes of the message (x
// lost, c a copy is held back, l the copy arrives late; over a line also p a request comes out, r a message is held, t
// its second copy comes out, and l one that was held), and H where it comes over an hour later, else a space.
const MOVE_BYTES: usize = 4;

// A move: its number, from 1 on, its letter, its client run or signing, what becomes of its message, whether it comes
// over an hour later, and whether its request repeats one: no reply came just before, and it is no late copy. The
// letters are bytes, since the script's text has them, and since a record begins with that of its move.
#[derive(Clone, Copy)]
pub struct Move {
    pub number: u64,
    pub letter: u8,
    pub run: u8,
    pub fate: u8,
    pub hour: u8,
    pub repeated: bool,
}

// Byte i of a text; 0 after its end.
pub fn byte_at(s: &[u8], i: usize) -> u8 {
    s.get(i).copied().unwrap_or(0)
}

// Move i, from 0 on, of a script that begins with a blank move.
fn move_in(script: &[u8], i: u8) -> Move {
    let s = behind(script, usize::from(i) * MOVE_BYTES);
    let fate = byte_at(s, MOVE_BYTES + 2);
    Move {
        number: u64::from(i) + 1,
        letter: byte_at(s, MOVE_BYTES),
        run: byte_at(s, MOVE_BYTES + 1) % 16,
        fate,
        hour: byte_at(s, MOVE_BYTES + 3),
        repeated: fate != b'l' && byte_at(s, 0) == b'N',
    }
}

// Move i of the exercises, from 0 on: an index, since the move's number and the headings follow from it.
pub fn move_at(i: u8) -> Move {
    move_in(
        b"    \
        M2  U1  F1  R1  F1  R1  F1  R1  F1  R1  \
        D2  F2  R2  F2  R2  F2  R2  \
        U3  F3x N3  F3  R3  F3c R3  F3  R3x N3  F3  R3  F3l R3  F3c R3  F3l R3x \
        U4  F4  R4  F4  R4  F4  R4x N4  F4  R4  \
        M5  D5  F5  R5  F5  R5x P0  \
        T0  N5  F5  R5  F5  R5  F5  R5  \
        U6  F6  R6  F6c R6  F6x N6  F6x N6  F6x N6  F6x N6  F6x N6  F6x N6  F6lHR6x \
        J4  J6  \
        G1  Q1  G2  Q2  G3  Q3  G4  Q4  G5  Q5  ",
        i,
    )
}
