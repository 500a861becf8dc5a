// What a client run holds besides numbers, each as a number, and back. Functions and no `From`: all these types are of
// crates below.
ghost use Rattle.std.specs.Prelude.{◌≡◌};
ghost use Rattle.unit_rows.specs.Codes.{number_of_stage, stage_of, number_of_direction, direction_of};
ghost use Rattle.unit_rows.specs.Codes.{number_of_step, step_of, number_of_edition};

use client_run::run::{Stage, Step, Word};
use message::directions::Direction;
use message::editions::Edition;

// 0 not begun, 1 running, from 2 on ended with a closing word.
pub(crate) fn number_of_stage(stage: Stage) -> u64
    ensures { result ≡ number_of_stage stage }
{
    match stage {
        Stage::NotBegun => 0,
        Stage::Running => 1,
        Stage::Ended(Word::Lodged) => 2,
        Stage::Ended(Word::NotLodged) => 3,
        Stage::Ended(Word::Unclear) => 4,
        Stage::Ended(Word::Fetched) => 5,
        Stage::Ended(Word::HeldUnconfirmed) => 6,
        Stage::Ended(Word::NotFetched) => 7,
    }
}

pub(crate) fn stage_of(n: u64) -> Stage
    ensures { result ≡ stage_of n }
{
    match n {
        0 => Stage::NotBegun,
        1 => Stage::Running,
        2 => Stage::Ended(Word::Lodged),
        3 => Stage::Ended(Word::NotLodged),
        4 => Stage::Ended(Word::Unclear),
        5 => Stage::Ended(Word::Fetched),
        6 => Stage::Ended(Word::HeldUnconfirmed),
        _ => Stage::Ended(Word::NotFetched),
    }
}

pub(crate) fn number_of_direction(direction: Direction) -> u64
    ensures { result ≡ number_of_direction direction }
{
    match direction {
        Direction::Upload => 0,
        Direction::Download => 1,
    }
}

pub(crate) fn direction_of(n: u64) -> Direction
    ensures { result ≡ direction_of n }
{
    match n {
        0 => Direction::Upload,
        _ => Direction::Download,
    }
}

pub(crate) fn number_of_step(step: Step) -> u64
    ensures { result ≡ number_of_step step }
{
    match step {
        Step::Opening => 0,
        Step::Segment => 1,
        Step::Receipt => 2,
    }
}

pub(crate) fn step_of(n: u64) -> Step
    ensures { result ≡ step_of n }
{
    match n {
        0 => Step::Opening,
        1 => Step::Segment,
        _ => Step::Receipt,
    }
}

pub(crate) fn number_of_edition(edition: Edition) -> u64
    ensures { result ≡ number_of_edition edition }
{
    match edition {
        Edition::V25 => 0,
        Edition::V24 => 1,
    }
}
