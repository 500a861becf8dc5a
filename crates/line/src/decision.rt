// What the generator's value decides about a message.
ghost use Rattle.std.specs.Prelude.{◌≡◌};
ghost use Rattle.line.specs.Line.{decision};

use crate::layout::MOST_HELD;

// The message is lost, is held, or comes out in so many copies.
#[derive(Clone, Copy)]
pub enum Decision {
    Lose,
    Hold,
    Deliver(u64),
}

// "its value modulo 8 decides".
const OUTCOMES: u32 = 8;

// What a value decides where so many messages are held.
#[tactic(auto, unfolding(crate::specs::Line::decision))]
pub fn decide(value: u32, count: usize) -> Decision
    ensures { result ≡ decision value count }
{
    match value % OUTCOMES {
        0 => Decision::Lose,
        1 => Decision::Deliver(2),
        2 if count < MOST_HELD => Decision::Hold,
        _ => Decision::Deliver(1),
    }
}
