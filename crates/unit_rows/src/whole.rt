// The unit that the numbers are.
ghost use Rattle.std.specs.Prelude.{◌≡◌};
ghost use Rattle.unit_rows.specs.Rows.{runs_from, unit_from};

use crate::events::{ROW_SIZE, journal_of};
use crate::runs::{NONCES_SIZE, RUNS_SIZE, run_at};
use unit_state::record::RUN_COUNT;
use unit_state::state::{Run, UnitState};

// All runs by value.
fn runs_of(runs: &[u64; RUNS_SIZE], nonces: &[u8; NONCES_SIZE]) -> [Run; RUN_COUNT]
    ensures { result ≡ runs_from runs.now nonces.now }
{
    let mut held = [run_at(runs, nonces, 0); RUN_COUNT];
    // Indices, since each also names a run of the numbers.
    for i in 0..RUN_COUNT {
        held[i] = run_at(runs, nonces, i);
    }
    held
}

// The unit by value.
pub fn unit_of(
    runs: &[u64; RUNS_SIZE],
    nonces: &[u8; NONCES_SIZE],
    row: &[u64; ROW_SIZE],
) -> UnitState
    ensures { result ≡ unit_from runs.now nonces.now row.now }
{
    UnitState {
        runs: runs_of(runs, nonces),
        journal: journal_of(row),
    }
}
