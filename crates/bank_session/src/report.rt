// The seven counts are asked for: a call without time or buffers, on the session's numbers alone.
ghost use Rattle.std.specs.Prelude.{◌≡◌};
ghost use Rattle.bank_session.specs.Session.{count_call};

use crate::layout::SESSION_SIZE;
use crate::numbers::counts_in;
use bank_rows::layout::STATE_SIZE;
use bank_sound::sound::is_sound;
use number_table::table::WrongLength;
use opening_counts::seven::{Counts, can_grow};

// Where every opening ended, with the session's numbers lent.
#[tactic(auto, unfolding(crate::specs::Session::count_call))]
pub fn count_openings(rows: &[u64]) -> Result<Counts, WrongLength>
    ensures { result ≡ count_call rows.now }
{
    if rows.len() != SESSION_SIZE {
        return Err(WrongLength);
    }
    if !is_sound(&rows[..STATE_SIZE]) {
        return Err(WrongLength);
    }
    let counts = counts_in(rows);
    if !can_grow(counts) {
        return Err(WrongLength);
    }
    Ok(counts)
}
