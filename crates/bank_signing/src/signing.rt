// What an accepted signing leaves.
ghost use Rattle.std.specs.Prelude.{◌≡◌, ◌≤◌};
ghost use Rattle.bank_state.specs.Limits.{all_signers};
ghost use Rattle.bank_rows.specs.State.{bank_of, stored, Laid};
ghost use Rattle.bank_signing.specs.Signings.{Signs, signed_place, sign};

use crate::orders::find_order;
use bank_lists::nonces::add_nonce;
use bank_rows::places::{place_at, set_place};
use bank_state::state::Place;
use frame_table::fields::Fields;
use signers::set::with_signer;

// The place with the subscriber among the signers of its order.
fn signed_place(p: Place, subscriber: u64) -> Place
    requires { p.signers ≤ all_signers }
    ensures { result ≡ signed_place subscriber p }
{
    Place {
        signers: u64::from(with_signer(p.signers as u8, subscriber)),
        ..p
    }
}

// The subscriber becomes a signer of the order named, and the signing's nonce is remembered.
pub fn sign(rows: &mut [u64], q: Fields)
    requires { Laid rows.old × Signs (bank_of rows.old) q }
    ensures { rows.new ≡ stored (sign q (bank_of rows.old)) rows.old }
{
    let i = find_order(rows, q.owner(), q.order_number());
    let place = signed_place(place_at(rows, i), q.subscriber());
    set_place(rows, i, place);
    let nonce = q.nonce();
    add_nonce(rows, nonce.high, nonce.low, q.timestamp());
}
