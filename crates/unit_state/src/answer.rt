// What a call of a record answers.
ghost use Rattle.std.specs.Prelude.{◌≡◌};
ghost use Rattle.unit_state.specs.Answers.{is_answer};

use calendar::dates::Date;
use client_run::run::Word;
use journal::event::OrderName;
use opening_counts::seven::Counts;

// What a call answers: the length of the reply in the buffer, the file is in the mailbox, the length of the request,
// the run stays, its closing word with what names its order, the journal left the run as it was, the length of the
// image, the session is taken up, the bytes are in the image room, the value day, the line is made, what comes out of a
// line (so many copies of the message put in, and behind them the held one of this length in the buffer), the seven
// counts, or the number that the call was given. A record that is no call has none.
#[derive(Clone, Copy)]
pub enum Answer {
    Frame(usize),
    Put,
    Request(usize),
    Ignored,
    Closed(Word, OrderName),
    Unchanged,
    Away(usize),
    TakenUp,
    Room,
    Day(Date),
    Line,
    Out(u64),
    OutAndHeld(u64, usize),
    Counted(Counts),
    Number(u64),
    NoCall,
}

// Whether there is an answer.
pub fn is_answer(answer: Answer) -> bool
    ensures { result ≡ is_answer answer }
{
    !matches!(answer, Answer::NoCall)
}
