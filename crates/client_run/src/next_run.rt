// The next run, by what the event led to.
ghost use Rattle.std.specs.Prelude.{◌≡◌, ◌+◌, ◌^◌, ◌≤◌, ◌<◌, max};
ghost use Rattle.message.specs.Limits.{segment_bytes, max_segments};
ghost use Rattle.client_run.specs.Run.{max_exchange};
ghost use Rattle.client_run.specs.NextRun.{begin_length, begun, step_after, go_on, repeated, learned};
ghost use Rattle.client_run.specs.NextRun.{learned_number, HasPlace, length_with, holding, ended};

use crate::run::{ClientRun, Lengths, RunParameters, RunTerms, Stage, Step, Word, chosen_number};
use frame_table::fields::{Bits128, Fields};
use message::directions::Direction;
use message::editions::Edition;
use message::limits::SEGMENT_SIZE;
use message::segments::segments_of;

// The bytes that count of what is lent to begin.
pub fn begin_length(direction: Direction, l: Lengths) -> u64
    ensures { result ≡ begin_length direction l }
{
    match direction {
        Direction::Upload => l.payload as u64,
        Direction::Download => 0,
    }
}

// The run as begun.
#[tactic(auto, unfolding(crate::specs::NextRun::begun))]
pub fn begun(params: RunParameters, n: u64) -> ClientRun
    ensures { result ≡ begun params n }
{
    ClientRun {
        stage: Stage::Running,
        direction: params.direction,
        step: Step::Opening,
        subscriber: params.subscriber,
        exchange: params.first,
        repeats: 0,
        terms: params.terms,
        transaction: Bits128 { high: 0, low: 0 },
        number: 0,
        length: n,
        segments: segments_of(n),
        segment: 0,
        issued: 0,
    }
}

// The step after segment k of n: a download's receipt stands behind segment n.
fn step_after(direction: Direction, k: u64, n: u64) -> Step
    ensures { result ≡ step_after direction k n }
{
    match direction {
        Direction::Download if k == n => Step::Receipt,
        _ => Step::Segment,
    }
}

// The run with the request after segment k outstanding.
#[tactic(auto, unfolding(crate::specs::NextRun::go_on))]
pub fn go_on(k: u64, repeats: u64, c: ClientRun) -> ClientRun
    requires { (k + 1 < 2 ^ 64) × (c.exchange ≤ max_exchange) }
    ensures { result ≡ go_on k repeats c }
{
    ClientRun {
        step: step_after(c.direction, k, c.segments),
        exchange: c.exchange + 1,
        repeats,
        segment: k + 1,
        issued: c.issued.max(k + 1),
        ..c
    }
}

// The run with the same request outstanding again.
#[tactic(auto, unfolding(crate::specs::NextRun::repeated))]
pub fn repeated(c: ClientRun) -> ClientRun
    requires { (c.repeats + 1 < 2 ^ 64) × (c.exchange ≤ max_exchange) }
    ensures { result ≡ repeated c }
{
    ClientRun {
        exchange: c.exchange + 1,
        repeats: c.repeats + 1,
        ..c
    }
}

// The order number of an upload that was opened: in edition 2.4 the one that begin brought, in 2.5 the reply's.
fn learned_number(terms: RunTerms, r: Fields) -> u64
    ensures { result ≡ learned_number terms.edition terms r }
{
    match terms.edition {
        Edition::V24 => chosen_number(terms),
        Edition::V25 => r.order_number(),
    }
}

// What the answer to the opening tells.
pub fn learned(r: Fields, c: ClientRun) -> ClientRun
    ensures { result ≡ learned c.direction r c }
{
    match c.direction {
        Direction::Upload => ClientRun {
            transaction: r.transaction(),
            number: learned_number(c.terms, r),
            segment: 0,
            ..c
        },
        Direction::Download => ClientRun {
            transaction: r.transaction(),
            number: 0,
            segments: r.segments(),
            segment: 1,
            ..c
        },
    }
}

// The bytes that count once segment s is answered with d bytes.
fn length_with(direction: Direction, s: u64, d: usize, n: u64) -> u64
    requires { direction ≡ Direction.Download → (1 ≤ s) × (s ≤ max_segments) × (d ≤ segment_bytes) }
    ensures { result ≡ length_with direction s d n }
{
    match direction {
        Direction::Upload => n,
        Direction::Download => (s - 1) * SEGMENT_SIZE + d as u64,
    }
}

// The run with its outstanding segment, answered with d bytes, held.
pub fn holding(d: usize, c: ClientRun) -> ClientRun
    requires { HasPlace c d }
    ensures { result ≡ holding d c }
{
    ClientRun {
        length: length_with(c.direction, c.segment, d, c.length),
        ..c
    }
}

// The run ended with a word.
#[tactic(auto, unfolding(crate::specs::NextRun::ended))]
pub fn ended(w: Word, c: ClientRun) -> ClientRun
    ensures { result ≡ ended w c }
{
    ClientRun {
        stage: Stage::Ended(w),
        ..c
    }
}
