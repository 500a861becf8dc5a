// The lent stores: the bytes of an order place, and the file of a mailbox.
ghost use Rattle.std.specs.Prelude.{◌≡◌, ◌+◌, ◌<◌, ◌≤◌, length, replicate};
ghost use Rattle.octets.specs.Bytes.{overwrite};
ghost use Rattle.bank_state.specs.Limits.{place_count, store_bytes};
ghost use Rattle.bank_state.specs.Store.{part_at, zeroed, file_of};

use message::limits::FILE_BYTES;
use octets::bytes::{behind_pieces, copy, front};

// The most bytes that one fill clears: a quarter of a place.
const BLOCK_BYTES: usize = FILE_BYTES / 4;

fn clear_block(part: &mut [u8])
    ensures { part.new ≡ replicate (length part.old) 0 }
{
    part.fill(0);
}

// Sets every byte to 0, by halves, since one long fill becomes a repeated instruction that counts once for each byte.
pub fn clear(part: &mut [u8])
    ensures { part.new ≡ replicate (length part.old) 0 }
{
    let n = part.len();
    if n <= BLOCK_BYTES {
        clear_block(part);
    } else {
        let half = n / 2;
        clear(&mut part[..half]);
        clear(&mut part[half..]);
    }
}

// Zeroes place or mailbox i of a store.
pub fn zero(store: &mut [u8], i: usize)
    requires { (length store.old ≡ store_bytes) × (i < place_count) }
    ensures { store.new ≡ zeroed store.old i }
{
    let from = i * FILE_BYTES;
    clear(&mut store[from..from + FILE_BYTES]);
}

// The bytes of place or mailbox i of a store.
#[tactic(auto, unfolding(crate::specs::Store::part_at))]
pub fn part(store: &[u8], i: usize) -> &[u8]
    ensures { result.now ≡ part_at store.now i }
{
    front(
        behind_pieces(store, i as u64, FILE_BYTES as u64),
        FILE_BYTES,
    )
}

// The file of n bytes in mailbox i.
#[tactic(auto, unfolding(crate::specs::Store::file_of))]
pub fn file_of(mailboxes: &[u8], i: usize, n: u64) -> &[u8]
    ensures { result.now ≡ file_of mailboxes.now i n }
{
    front(part(mailboxes, i), n as usize)
}

// Writes a segment directly behind the bytes already in its place, which end at `at`.
pub fn append(place: &mut [u8], at: usize, segment: &[u8])
    requires { at + length segment.now ≤ length place.old }
    ensures { place.new ≡ overwrite place.old at segment.now }
{
    copy(&mut place[at..], 0, segment);
}
