// Which call is given which number.
ghost use Rattle.std.specs.Prelude.{◌≡◌};
ghost use Rattle.client_rules.specs.Rulings.{time_first, wrong_buffers, changed_length, wrong_lengths, no_subscriber};
ghost use Rattle.client_rules.specs.Rulings.{is_begun, ruling_at_begin, begin_ruling, ruling_not_begun, ruling_running};
ghost use Rattle.client_rules.specs.Rulings.{ruling_ended, ruling_at_stage, run_ruling};

use client_run::run::{
    ClientRun, Lengths, MAX_EXCHANGE, MAX_FIRST_EXCHANGE, REQUEST_ROOM, Refusal, RunParameters,
    Stage,
};
use frame_table::table::LAST_TIME;
use message::directions::Direction;
use message::limits::{FILE_BYTES, SUBSCRIBERS};

// Number 1 before the other numbers: the time is over the last one.
#[tactic(auto, unfolding(crate::specs::Rulings::time_first))]
fn time_first(time: u64, others: Result<(), Refusal>) -> Result<(), Refusal>
    ensures { result ≡ time_first time others }
{
    if LAST_TIME < time {
        Err(Refusal::TimeTooHigh)
    } else {
        others
    }
}

// Whether a length does not serve the direction.
fn wrong_buffers(direction: Direction, l: Lengths) -> bool
    ensures { result ≡ wrong_buffers direction l }
{
    match direction {
        Direction::Upload => l.payload == 0 || FILE_BYTES < l.payload || l.request < REQUEST_ROOM,
        Direction::Download => l.file != FILE_BYTES || l.request < REQUEST_ROOM,
    }
}

// Whether the payload's length is another than at begin.
fn changed_length(c: ClientRun, l: Lengths) -> bool
    ensures { result ≡ changed_length c.direction c l }
{
    match c.direction {
        Direction::Upload => l.payload as u64 != c.length,
        Direction::Download => false,
    }
}

// Whether a length does not serve the run.
#[tactic(auto, unfolding(crate::specs::Rulings::wrong_lengths))]
fn wrong_lengths(c: ClientRun, l: Lengths) -> bool
    ensures { result ≡ wrong_lengths c l }
{
    wrong_buffers(c.direction, l) || changed_length(c, l)
}

// Whether there is no such subscriber.
#[tactic(auto, unfolding(crate::specs::Rulings::no_subscriber))]
fn no_subscriber(subscriber: u64) -> bool
    ensures { result ≡ no_subscriber subscriber }
{
    !(1..=SUBSCRIBERS).contains(&subscriber)
}

// Whether the run was begun.
pub fn is_begun(stage: Stage) -> bool
    ensures { result ≡ is_begun stage }
{
    !matches!(stage, Stage::NotBegun)
}

// Whether begin is given one of the numbers 5 to 8.
#[tactic(auto, unfolding(crate::specs::Rulings::ruling_at_begin))]
fn ruling_at_begin(c: ClientRun, params: RunParameters, l: Lengths) -> Result<(), Refusal>
    ensures { result ≡ ruling_at_begin c params l }
{
    if wrong_buffers(params.direction, l) {
        Err(Refusal::WrongBuffer)
    } else if MAX_FIRST_EXCHANGE < params.first {
        Err(Refusal::ExchangeTooHigh)
    } else if no_subscriber(params.subscriber) {
        Err(Refusal::NoSubscriber)
    } else if is_begun(c.stage) {
        Err(Refusal::WrongStage)
    } else {
        Ok(())
    }
}

// Whether begin is given a number.
#[tactic(auto, unfolding(crate::specs::Rulings::begin_ruling))]
pub fn begin_ruling(
    c: ClientRun,
    params: RunParameters,
    time: u64,
    l: Lengths,
) -> Result<(), Refusal>
    ensures { result ≡ begin_ruling c params time l }
{
    time_first(time, ruling_at_begin(c, params, l))
}

// The number that a call to a run not begun is given.
#[tactic(auto, unfolding(crate::specs::Rulings::ruling_not_begun))]
fn ruling_not_begun(l: Lengths) -> Result<(), Refusal>
    ensures { result ≡ ruling_not_begun l }
{
    if l.request < REQUEST_ROOM {
        Err(Refusal::WrongBuffer)
    } else {
        Err(Refusal::WrongStage)
    }
}

// Whether a call to a running run is given a number.
#[tactic(auto, unfolding(crate::specs::Rulings::ruling_running))]
fn ruling_running(c: ClientRun, l: Lengths) -> Result<(), Refusal>
    ensures { result ≡ ruling_running c l }
{
    if wrong_lengths(c, l) {
        Err(Refusal::WrongBuffer)
    } else if MAX_EXCHANGE < c.exchange {
        Err(Refusal::ExchangeTooHigh)
    } else {
        Ok(())
    }
}

// The number that a call to an ended run is given.
#[tactic(auto, unfolding(crate::specs::Rulings::ruling_ended))]
fn ruling_ended(c: ClientRun, l: Lengths) -> Result<(), Refusal>
    ensures { result ≡ ruling_ended c l }
{
    if wrong_lengths(c, l) {
        Err(Refusal::WrongBuffer)
    } else {
        Err(Refusal::WrongStage)
    }
}

// Whether a call with a reply, or with none, is given one of the numbers 5 to 8.
fn ruling_at_stage(c: ClientRun, l: Lengths) -> Result<(), Refusal>
    ensures { result ≡ ruling_at_stage c.stage c l }
{
    match c.stage {
        Stage::NotBegun => ruling_not_begun(l),
        Stage::Running => ruling_running(c, l),
        Stage::Ended(_) => ruling_ended(c, l),
    }
}

// Whether a call with a reply, or with none, is given a number.
#[tactic(auto, unfolding(crate::specs::Rulings::run_ruling))]
pub fn run_ruling(c: ClientRun, time: u64, l: Lengths) -> Result<(), Refusal>
    ensures { result ≡ run_ruling c time l }
{
    time_first(time, ruling_at_stage(c, l))
}
