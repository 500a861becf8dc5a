// What becomes of a message that is put into a line: the moves that come of it.
use exercise_texts::record::{MAIL_BYTES, keep_late, message_of};
use line::calls::{Delivery, put_in};
use line::decision::{Decision, decide};
use line::layout::{MESSAGE_BYTES, ROW_SIZE, STORE_BYTES, VALUE_AT};
use number_table::table::WrongLength;
use octets::bytes::front;

// The moves still to come of a message that was put in, each by its fate: of the message itself, of its second copy,
// and of the message held longest, which comes out late.
#[derive(Clone, Copy)]
pub struct Fates {
    pub first: Option<u8>,
    pub second: Option<u8>,
    pub late: Option<u8>,
}

impl Fates {
    // No move is still to come.
    pub(crate) fn none() -> Self {
        Fates {
            first: None,
            second: None,
            late: None,
        }
    }

    // The one move of a message of which no copy comes out.
    fn one(fate: u8) -> Self {
        Fates {
            first: Some(fate),
            ..Self::none()
        }
    }

    // The fate of the next of the moves, if one is left.
    pub(crate) fn next(self) -> Option<u8> {
        self.first.or(self.second).or(self.late)
    }

    // The moves after the next one.
    pub(crate) fn later(self) -> Self {
        match self {
            Fates { first: Some(_), .. } => Fates {
                first: None,
                ..self
            },
            Fates {
                second: Some(_),
                ..
            } => Fates {
                second: None,
                ..self
            },
            _ => Self::none(),
        }
    }
}

// The generator's values are below this one.
const VALUE_LIMIT: u64 = 4294967296;

// The fate of a message of which no copy came out: x lost, or r held, as the generator's value decided.
fn kept_back(row: &[u64; ROW_SIZE]) -> u8 {
    let value = (row[VALUE_AT] % VALUE_LIMIT) as u32;
    match decide(value, 0) {
        Decision::Hold => b'r',
        _ => b'x',
    }
}

// The fate of a message that comes out, p where it is a request, of which the second copy may have to be kept.
fn passing(letter: u8) -> u8 {
    if letter == b'F' { b'p' } else { b' ' }
}

// The moves of a message of which so many copies come out, with the fate of the late one.
fn fates_of(letter: u8, copies: u64, row: &[u64; ROW_SIZE], late: Option<u8>) -> Fates {
    let second = match copies {
        0 => return Fates::one(kept_back(row)),
        1 => None,
        _ => Some(b't'),
    };
    Fates {
        first: Some(passing(letter)),
        second,
        late,
    }
}

// Puts the request (letter F) or the reply (R) that waits among the mail into its line; a late message is kept there.
// One that the line did not take, as none here is, would be lost.
pub(crate) fn put_message(
    letter: u8,
    mail: &mut [u8; MAIL_BYTES],
    row: &mut [u64; ROW_SIZE],
    store: &mut [u8; STORE_BYTES],
) -> Fates {
    let mut out = [0u8; MESSAGE_BYTES];
    match put_in(row, store, message_of(mail, letter, b' '), &mut out) {
        Ok(Delivery { copies, held: None }) => fates_of(letter, copies, row, None),
        Ok(
            Delivery {
                copies,
                held: Some(n),
            },
        ) => {
            keep_late(mail, letter, front(&out, n));
            fates_of(letter, copies, row, Some(b'l'))
        }
        Err(WrongLength) => Fates::one(b'x'),
    }
}
