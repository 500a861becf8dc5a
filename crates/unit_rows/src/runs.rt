// The client runs as numbers, and the nonce bytes that they keep.
ghost use Rattle.std.specs.Prelude.{◌≡◌, ◌*◌, ◌<◌, length, set, take, drop};
ghost use Rattle.octets.specs.Bytes.{overwrite};
ghost use Rattle.unit_state.specs.Records.{run_count};
ghost use Rattle.unit_state.specs.State.{run_at};
ghost use Rattle.unit_rows.specs.Rows.{run_width, runs_size, client_of, run_numbers, runs_from};

use crate::codes::{
    direction_of, number_of_direction, number_of_edition, number_of_stage, number_of_step,
    stage_of, step_of,
};
use bank_rows::rows::put;
use client::calls::Client;
use client_run::run::{ClientRun, NONCE_BYTES, RunTerms};
use frame_table::fields::Bits128;
use octets::bytes::copy;
use unit_state::record::{RUN_COUNT, bytes_at, edition_of};
use unit_state::state::Run;

// The numbers of a run, of all runs, and the nonce bytes of all runs.
const RUN_WIDTH: usize = 16;

pub const RUNS_SIZE: usize = RUN_COUNT * RUN_WIDTH;

pub const NONCES_SIZE: usize = RUN_COUNT * NONCE_BYTES;

// The client of run i.
fn client_at(runs: &[u64; RUNS_SIZE], i: usize) -> ClientRun
    requires { i < run_count }
    ensures { result ≡ client_of (take run_width (drop (run_width * i) runs.now)) }
{
    let at = RUN_WIDTH * i;
    ClientRun {
        stage: stage_of(runs[at]),
        direction: direction_of(runs[at + 1]),
        step: step_of(runs[at + 2]),
        subscriber: runs[at + 3],
        exchange: runs[at + 4],
        repeats: runs[at + 5],
        terms: RunTerms {
            edition: edition_of(runs[at + 6]),
            number: runs[at + 7],
        },
        transaction: Bits128 {
            high: runs[at + 8],
            low: runs[at + 9],
        },
        number: runs[at + 10],
        length: runs[at + 11],
        segments: runs[at + 12],
        segment: runs[at + 13],
        issued: runs[at + 14],
    }
}

// Run i.
pub fn run_at(runs: &[u64; RUNS_SIZE], nonces: &[u8; NONCES_SIZE], i: usize) -> Run
    requires { i < run_count }
    ensures { result ≡ run_at (runs_from runs.now nonces.now) i }
{
    let client = Client {
        run: client_at(runs, i),
    };
    let mut nonce = [0u8; NONCE_BYTES];
    copy(
        &mut nonce,
        0,
        bytes_at(nonces, NONCE_BYTES * i, NONCE_BYTES),
    );
    Run {
        client,
        nonce,
        payload: runs[RUN_WIDTH * i + 15],
    }
}

// Writes the numbers of run i.
fn put_run(runs: &mut [u64; RUNS_SIZE], i: usize, run: Run)
    requires { i < run_count }
    ensures { (length runs.old ≡ runs_size)
        × (runs.new ≡ overwrite runs.old (run_width * i) (run_numbers run)) }
{
    let c = run.client.run;
    let numbers = [
        number_of_stage(c.stage),
        number_of_direction(c.direction),
        number_of_step(c.step),
        c.subscriber,
        c.exchange,
        c.repeats,
        number_of_edition(c.terms.edition),
        c.terms.number,
        c.transaction.high,
        c.transaction.low,
        c.number,
        c.length,
        c.segments,
        c.segment,
        c.issued,
        run.payload,
    ];
    put(runs, RUN_WIDTH * i, &numbers);
}

// Sets run i.
pub fn set_run(runs: &mut [u64; RUNS_SIZE], nonces: &mut [u8; NONCES_SIZE], i: usize, run: Run)
    requires { i < run_count }
    ensures { runs_from runs.new nonces.new
        ≡ set (runs_from runs.old nonces.old) i run }
{
    put_run(runs, i, run);
    copy(nonces, NONCE_BYTES * i, &run.nonce);
}
