// The one test of the rows: the numbers that the code relies on.
ghost use Rattle.std.specs.Prelude.{◌≡◌, ◌+◌, ◌≤◌, ◌<◌, length};
ghost use Rattle.bank_state.specs.Limits.{place_count};
ghost use Rattle.bank_rows.specs.Layout.{place_width, state_size};
ghost use Rattle.bank_sound.specs.Sound.{is_sound_file, is_sound_upload, is_sound_place, is_sound_download, is_sound};
ghost use Rattle.bank_rows.specs.Rows.{all_below};
ghost use Rattle.bank_rows.specs.State.{download_count_of};

use bank_rows::layout::{
    DOWNLOAD_COUNT_AT, DOWNLOAD_DELIVERED, DOWNLOAD_SUBSCRIBER, DOWNLOAD_WIDTH, DOWNLOADS_AT,
    FILES_AT, NONCE_COUNT_AT, PLACE_LENGTH, PLACE_SEGMENTS, PLACE_SIGNERS, PLACE_TAKEN, PLACE_USE,
    PLACE_WIDTH, PLACES_AT, STATE_SIZE,
};
use bank_rows::places::{BOOKED, OPEN};
use bank_state::limits::{ALL_SIGNERS, NONCE_COUNT, PLACE_COUNT};
use message::limits::{FILE_BYTES, MAX_SEGMENTS, SEGMENT_BYTES, SUBSCRIBERS};
use message::segments::segments_of;

fn are_sound_files(rows: &[u64]) -> bool
    requires { length rows.now ≡ state_size }
    ensures { result ≡ all_below (is_sound_file rows.now) place_count }
{
    (0..PLACE_COUNT).all(|i| rows[FILES_AT + i] <= FILE_BYTES as u64)
}

// Whether the row that starts here can be an open upload's.
#[tactic(auto, unfolding(crate::specs::Sound::is_sound_upload))]
fn is_sound_upload(rows: &[u64], at: usize) -> bool
    requires { (length rows.now ≡ state_size) × (at + place_width ≤ state_size) }
    ensures { result ≡ is_sound_upload rows.now at }
{
    let segments = rows[at + PLACE_SEGMENTS];
    let taken = rows[at + PLACE_TAKEN];
    segments <= MAX_SEGMENTS
        && taken < segments
        && rows[at + PLACE_LENGTH] <= taken * SEGMENT_BYTES as u64
}

// An open upload's segments bound its length.
fn is_sound_place(rows: &[u64], i: usize) -> bool
    requires { (length rows.now ≡ state_size) × (i < place_count) }
    ensures { result ≡ is_sound_place rows.now i }
{
    let at = PLACES_AT + PLACE_WIDTH * i;
    rows[at + PLACE_USE] <= BOOKED
        && rows[at + PLACE_SIGNERS] <= ALL_SIGNERS
        && rows[at + PLACE_LENGTH] <= FILE_BYTES as u64
        && (rows[at + PLACE_USE] != OPEN || is_sound_upload(rows, at))
}

fn are_sound_places(rows: &[u64]) -> bool
    requires { length rows.now ≡ state_size }
    ensures { result ≡ all_below (is_sound_place rows.now) place_count }
{
    (0..PLACE_COUNT).all(|i| is_sound_place(rows, i))
}

fn is_sound_download(rows: &[u64], i: usize) -> bool
    requires { (length rows.now ≡ state_size) × (i < place_count) }
    ensures { result ≡ is_sound_download rows.now i }
{
    let at = DOWNLOADS_AT + DOWNLOAD_WIDTH * i;
    let subscriber = rows[at + DOWNLOAD_SUBSCRIBER];
    (1..=SUBSCRIBERS).contains(&subscriber)
        && rows[at + DOWNLOAD_DELIVERED] <= segments_of(rows[FILES_AT + (subscriber - 1) as usize])
}

fn are_sound_downloads(rows: &[u64]) -> bool
    requires { (length rows.now ≡ state_size) × (download_count_of rows.now ≤ place_count) }
    ensures { result ≡ all_below (is_sound_download rows.now) (download_count_of rows.now) }
{
    let n = rows[DOWNLOAD_COUNT_AT] as usize;
    (0..n).all(|i| is_sound_download(rows, i))
}

// Whether the rows can be a bank's.
#[tactic(auto, unfolding(crate::specs::Sound::is_sound))]
pub fn is_sound(rows: &[u64]) -> bool
    ensures { result ≡ is_sound rows.now }
{
    rows.len() == STATE_SIZE
        && rows[DOWNLOAD_COUNT_AT] <= PLACE_COUNT as u64
        && rows[NONCE_COUNT_AT] <= NONCE_COUNT as u64
        && are_sound_files(rows)
        && are_sound_places(rows)
        && are_sound_downloads(rows)
}
