// How a signing is judged: document 01's list from top to bottom, as document 02's card 8 has it.
ghost use Rattle.std.specs.Prelude.{◌≡◌, not, ◌≤◌, ◌<◌};
ghost use Rattle.signers.specs.Signers.{is_signer};
ghost use Rattle.bank_state.specs.Limits.{place_count, all_signers};
ghost use Rattle.bank_rows.specs.State.{bank_of, Laid};
ghost use Rattle.bank_verdicts.specs.Judgement.{order_at, signed, judge_signing};
ghost use Rattle.bank_verdicts.specs.Refusals.{no_owner, signs_download, no_memory};
ghost use Rattle.bank_signing.specs.Signings.{SignerSets};

use crate::orders::find_order;
use bank_lists::nonces::nonce_count;
use bank_openings::judgement::{is_replay, unknown_type};
use bank_rows::places::place_at;
use bank_state::limits::{NONCE_COUNT, PLACE_COUNT};
use bank_state::state::Place;
use bank_verdicts::verdict::{SignedOrder, Verdict};
use frame_table::fields::Fields;
use message::codes::ReturnCode;
use message::limits::{FDL, SUBSCRIBERS};
use signers::set::is_signer;

// 091003: owner not 1 to 8.
#[tactic(auto, unfolding(bank_verdicts::specs::Refusals::no_owner))]
fn no_owner(q: Fields) -> bool
    ensures { result ≡ no_owner q }
{
    !(1..=SUBSCRIBERS).contains(&q.owner())
}

// 061002: order type FDL.
#[tactic(auto, unfolding(bank_verdicts::specs::Refusals::signs_download))]
fn signs_download(q: Fields) -> bool
    ensures { result ≡ signs_download q }
{
    q.order_type() == FDL
}

// 061099: 64 nonces remembered.
#[tactic(auto, unfolding(bank_verdicts::specs::Refusals::no_memory))]
fn no_memory(rows: &[u64]) -> bool
    requires { Laid rows.now }
    ensures { result ≡ no_memory (bank_of rows.now) }
{
    NONCE_COUNT <= nonce_count(rows)
}

// The place of the order that a signing names; the number of places where there is none.
fn order_at(rows: &[u64], q: Fields) -> usize
    requires { Laid rows.now }
    ensures { result ≡ order_at (bank_of rows.now) q }
{
    find_order(rows, q.owner(), q.order_number())
}

// Whether the subscriber is none of the signers of a place's order.
fn is_new(p: Place, subscriber: u64) -> bool
    requires { p.signers ≤ all_signers }
    ensures { result ≡ not (is_signer subscriber p.signers) }
{
    !is_signer(p.signers as u8, subscriber)
}

// An accepted signing of the order in place i: its ID and number, and whether it has a signer more.
fn signed(rows: &[u64], i: usize, q: Fields) -> Verdict
    requires { Laid rows.now × SignerSets (bank_of rows.now) × (i < place_count)
        × (i ≡ order_at (bank_of rows.now) q) }
    ensures { result ≡ signed (bank_of rows.now) q }
{
    let p = place_at(rows, i);
    let order = SignedOrder {
        transaction: p.transaction,
        number: p.number,
    };
    Verdict::Signed(order, is_new(p, q.subscriber()))
}

// A signing, judged in document 01's order: a line for each row of `signing_rows`.
#[tactic(auto, unfolding(bank_verdicts::specs::Judgement::judge_signing, bank_verdicts::specs::Refusals::signing_rows, bank_verdicts::specs::Refusals::not_booked))]
pub fn judge_signing(rows: &[u64], q: Fields) -> Verdict
    requires { Laid rows.now × SignerSets (bank_of rows.now) }
    ensures { result ≡ judge_signing (bank_of rows.now) q }
{
    if no_owner(q) {
        return Verdict::Refused(ReturnCode::UserUnknown);
    }
    if unknown_type(q) {
        return Verdict::Refused(ReturnCode::InvalidOrderType);
    }
    if signs_download(q) {
        return Verdict::Refused(ReturnCode::InvalidRequest);
    }
    if is_replay(rows, q) {
        return Verdict::Refused(ReturnCode::MessageReplay);
    }
    let i = order_at(rows, q);
    if PLACE_COUNT <= i {
        return Verdict::Refused(ReturnCode::OrderIdUnknown);
    }
    if no_memory(rows) {
        return Verdict::Refused(ReturnCode::InternalError);
    }
    signed(rows, i, q)
}
