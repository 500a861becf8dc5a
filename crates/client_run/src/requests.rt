// The request that a run has outstanding.
ghost use Rattle.std.specs.Prelude.{◌≡◌, []};
ghost use Rattle.client_run.specs.Requests.{nonce_of, terms_opening, upload_request, download_request, upload_data};
ghost use Rattle.client_run.specs.Requests.{outstanding, outstanding_data};

use crate::run::{ClientRun, NONCE_BYTES, Step, chosen_number};
use frame_table::fields::{Bits128, Fields};
use message::directions::Direction;
use message::editions::Edition;
use message::requests::{
    chosen_opening, download_opening, download_transfer, receipt, upload_opening, upload_transfer,
};
use message::segments::{last_mark_of, segment_of};
use octets::bytes::number;

// How many numbers the exchange number's four bytes have.
const EXCHANGES: u64 = 0x1_0000_0000;

// The 12 lent bytes, then the exchange number.
fn nonce_of(lent: [u8; NONCE_BYTES], exchange: u64) -> Bits128
    ensures { result ≡ nonce_of lent exchange }
{
    let high = number(&lent[..8]);
    let low = number(&lent[8..]);
    Bits128 {
        high,
        low: low * EXCHANGES + exchange % EXCHANGES,
    }
}

// The opening of an upload: in edition 2.4 it brings its order number.
fn opening_of(c: ClientRun, time: u64, nonce: Bits128) -> Fields
    ensures { result ≡ terms_opening c.terms c.subscriber c.exchange nonce time c.segments }
{
    match c.terms.edition {
        Edition::V24 => chosen_opening(
            c.subscriber,
            c.exchange,
            nonce,
            time,
            c.segments,
            chosen_number(c.terms),
        ),
        Edition::V25 => upload_opening(c.subscriber, c.exchange, nonce, time, c.segments),
    }
}

// The request of an upload at its step.
fn upload_request(c: ClientRun, time: u64, nonce: [u8; NONCE_BYTES]) -> Fields
    ensures { result ≡ upload_request c.step c time nonce }
{
    match c.step {
        Step::Opening => opening_of(c, time, nonce_of(nonce, c.exchange)),
        Step::Segment => upload_transfer(
            c.subscriber,
            c.exchange,
            c.transaction,
            c.segment,
            last_mark_of(c.segment, c.segments),
        ),
        Step::Receipt => receipt(c.subscriber, c.exchange, c.transaction, 0),
    }
}

// The request of a download at its step.
fn download_request(c: ClientRun, time: u64, nonce: [u8; NONCE_BYTES]) -> Fields
    ensures { result ≡ download_request c.step c time nonce }
{
    match c.step {
        Step::Opening => download_opening(
            c.subscriber,
            c.exchange,
            nonce_of(nonce, c.exchange),
            time,
        ),
        Step::Segment => download_transfer(c.subscriber, c.exchange, c.transaction, c.segment),
        Step::Receipt => receipt(c.subscriber, c.exchange, c.transaction, 0),
    }
}

// The fields of the outstanding request.
#[tactic(auto, unfolding(crate::specs::Requests::outstanding))]
pub fn request_of(c: ClientRun, time: u64, nonce: [u8; NONCE_BYTES]) -> Fields
    ensures { result ≡ outstanding c time nonce }
{
    match c.direction {
        Direction::Upload => upload_request(c, time, nonce),
        Direction::Download => download_request(c, time, nonce),
    }
}

// No bytes, as a part of the payload.
pub fn no_data(payload: &[u8]) -> &[u8]
    ensures { result.now ≡ [] }
{
    &payload[..0]
}

// The data of an upload's request at its step: the part of the payload itself.
fn upload_data(step: Step, s: u64, payload: &[u8]) -> &[u8]
    ensures { result.now ≡ upload_data step s payload.now }
{
    match step {
        Step::Segment => segment_of(payload, s),
        Step::Opening | Step::Receipt => no_data(payload),
    }
}

// The data of the outstanding request.
#[tactic(auto, unfolding(crate::specs::Requests::outstanding_data))]
pub fn data_of(c: ClientRun, payload: &[u8]) -> &[u8]
    ensures { result.now ≡ outstanding_data c payload.now }
{
    match c.direction {
        Direction::Upload => upload_data(c.step, c.segment, payload),
        Direction::Download => no_data(payload),
    }
}
