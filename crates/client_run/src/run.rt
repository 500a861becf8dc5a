// A client run, its closing words, and the answers of its calls.
ghost use Rattle.std.specs.Prelude.{◌≡◌};
ghost use Rattle.client_run.specs.Run.{not_begun, refusal_number, chosen_number, order_type_of, order_name};

use frame_table::fields::Bits128;
use journal::event::OrderName;
use message::directions::Direction;
use message::editions::Edition;
use message::limits::{FDL, FUL};
use number_table::table::{
    EXCHANGE_TOO_HIGH, NO_SUBSCRIBER, WRONG_BUFFER, WRONG_LENGTH, WRONG_STAGE,
};

// The bytes lent for a nonce: the exchange number follows them.
pub const NONCE_BYTES: usize = 12;

// The bytes of the largest request, which a request buffer has at least.
pub const REQUEST_ROOM: usize = 303;

// The highest first exchange number of a run.
pub const MAX_FIRST_EXCHANGE: u64 = 4_294_967_104;

// The highest exchange number: its field has 4 bytes.
pub const MAX_EXCHANGE: u64 = 4_294_967_295;

// The closing words of document 01. "Lodged" names the order of the run, by `order_name`.
#[derive(Clone, Copy)]
pub enum Word {
    Lodged,
    NotLodged,
    Unclear,
    Fetched,
    HeldUnconfirmed,
    NotFetched,
}

// What begin tells an upload run: card 11's "its edition, and in 2.4 its number", any four bytes as field 0E has them.
// Edition 2.5 leaves the number out, and a download run both.
#[derive(Clone, Copy)]
pub struct RunTerms {
    pub edition: Edition,
    pub number: u64,
}

// What a run is begun with: its order's direction, its subscriber, the first exchange number, and its terms.
#[derive(Clone, Copy)]
pub struct RunParameters {
    pub direction: Direction,
    pub subscriber: u64,
    pub first: u64,
    pub terms: RunTerms,
}

#[derive(Clone, Copy)]
pub enum Stage {
    NotBegun,
    Running,
    Ended(Word),
}

// The step whose request is outstanding.
#[derive(Clone, Copy)]
pub enum Step {
    Opening,
    Segment,
    Receipt,
}

// A client run. `exchange` is the outstanding request's exchange number, `segment` its segment number, `repeats` counts
// repeats and returns, `terms` are those that begin brought, `transaction` and `number` (the order number) are known once
// opened, `segments` is N, 0 while unknown. An upload has its payload's `length` and the highest segment `issued`; a download has the bytes held as
// `length`: those of the segments before the outstanding one, where N + 1 stands for the receipt.
#[derive(Clone, Copy)]
pub struct ClientRun {
    pub stage: Stage,
    pub direction: Direction,
    pub step: Step,
    pub subscriber: u64,
    pub exchange: u64,
    pub repeats: u64,
    pub terms: RunTerms,
    pub transaction: Bits128,
    pub number: u64,
    pub length: u64,
    pub segments: u64,
    pub segment: u64,
    pub issued: u64,
}

// Why a call is given a number: the time, a buffer, the first exchange number, the subscriber, or the run's stage.
#[derive(Clone, Copy, Debug, PartialEq, Eq)]
pub enum Refusal {
    TimeTooHigh,
    WrongBuffer,
    ExchangeTooHigh,
    NoSubscriber,
    WrongStage,
}

// Document 01's number for the client's owner, card 3's for the time.
impl From<Refusal> for u64 {
    ghost from_gives = { λ r n. n ≡ refusal_number r };

    fn from(refusal: Refusal) -> u64 {
        match refusal {
            Refusal::TimeTooHigh => WRONG_LENGTH,
            Refusal::WrongBuffer => WRONG_BUFFER,
            Refusal::ExchangeTooHigh => EXCHANGE_TOO_HIGH,
            Refusal::NoSubscriber => NO_SUBSCRIBER,
            Refusal::WrongStage => WRONG_STAGE,
        }
    }
}

// What a call answers that is given no number: the length of the request issued in the lent buffer, nothing, or the
// closing word.
#[derive(Clone, Copy)]
pub enum Answer {
    Request(usize),
    Ignored,
    Closed(Word),
}

// What an event leads to: nothing, the opening's answer taken, a segment's answer taken, a return to after a segment,
// the request again, or the run's end.
#[derive(Clone, Copy)]
pub enum Decision {
    Ignore,
    Opened,
    Advance,
    Return(u64),
    Repeat,
    Close(Word),
}

// The lengths of what is lent to a call.
#[derive(Clone, Copy)]
pub struct Lengths {
    pub payload: usize,
    pub file: usize,
    pub request: usize,
}

impl ClientRun {
    // A run not begun.
    pub fn new() -> Self
        ensures { result ≡ not_begun }
    {
        Self {
            stage: Stage::NotBegun,
            direction: Direction::Upload,
            step: Step::Opening,
            subscriber: 0,
            exchange: 0,
            repeats: 0,
            terms: RunTerms {
                edition: Edition::V25,
                number: 0,
            },
            transaction: Bits128 { high: 0, low: 0 },
            number: 0,
            length: 0,
            segments: 0,
            segment: 0,
            issued: 0,
        }
    }
}

// How many numbers the order number's four bytes have.
const ORDER_NUMBERS: u64 = 0x1_0000_0000;

// The order number that an upload run of edition 2.4 was told: its four bytes.
#[tactic(auto, unfolding(crate::specs::Run::chosen_number))]
pub fn chosen_number(terms: RunTerms) -> u64
    ensures { result ≡ chosen_number terms }
{
    terms.number % ORDER_NUMBERS
}

// The type of a run's order, as field 04 has it.
fn order_type_of(direction: Direction) -> u64
    ensures { result ≡ order_type_of direction }
{
    match direction {
        Direction::Upload => FUL,
        Direction::Download => FDL,
    }
}

// What names the run's order: document 02's "subscriber, type and number together".
pub fn order_name(c: ClientRun) -> OrderName
    ensures { result ≡ order_name c }
{
    OrderName {
        subscriber: c.subscriber,
        order_type: order_type_of(c.direction),
        number: c.number,
    }
}
