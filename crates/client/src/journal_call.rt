// The journal is handed to a run: document 02's call for runs that closed as unclear. `journal` and `journal_held`
// alone have the row; what they call has the number of its records and what it says of the run's upload.
ghost use Rattle.std.specs.Prelude.{◌≡◌};
ghost use Rattle.client.specs.Journal.{journal_call_of, ended_unclear, answer_on, answer_to, run_after};
ghost use Rattle.client.specs.Journal.{heard, journal_call};

use crate::calls::Client;
use client_run::next_run::ended;
use client_run::run::{ClientRun, Stage, Word};
use journal::event::{Event, Found, RECORD_COUNT};
use journal::row::find;
use number_table::table::WrongLength;

// What the call returns: the client with its next run, and the answer: the closing word of a run that is unclear no
// longer, nothing where the run is as it was, or document 01's number 1.
#[derive(Clone, Copy)]
pub struct JournalOutcome {
    pub client: Client,
    pub answer: Result<Option<Word>, WrongLength>,
}

// Whether a run closed as unclear.
fn ended_unclear(stage: Stage) -> bool
    ensures { result ≡ ended_unclear stage }
{
    matches!(stage, Stage::Ended(Word::Unclear))
}

// The answer to an unclear run, by what the journal says of its upload.
fn answer_on(found: Found) -> Result<Option<Word>, WrongLength>
    ensures { result ≡ answer_on found }
{
    match found {
        Found::Booked => Ok(Some(Word::Lodged)),
        Found::Ended => Ok(Some(Word::NotLodged)),
        Found::Nothing => Ok(None),
    }
}

// The answer to a run, where a row of so many records says this of its upload.
#[tactic(auto, unfolding(crate::specs::Journal::answer_to))]
fn answer_to(stage: Stage, records: usize, found: Found) -> Result<Option<Word>, WrongLength>
    ensures { result ≡ answer_to stage records found }
{
    if records != RECORD_COUNT {
        Err(WrongLength)
    } else if ended_unclear(stage) {
        answer_on(found)
    } else {
        Ok(None)
    }
}

// The run after the answer.
fn run_after(answer: Result<Option<Word>, WrongLength>, run: ClientRun) -> ClientRun
    ensures { result ≡ run_after answer run }
{
    match answer {
        Ok(Some(word)) => ended(word, run),
        Ok(None) | Err(WrongLength) => run,
    }
}

// A row of so many records says this of the run's upload.
fn heard(run: ClientRun, records: usize, found: Found) -> JournalOutcome
    ensures { journal_call_of result ≡ heard run records found }
{
    let answer = answer_to(run.stage, records, found);
    JournalOutcome {
        client: Client {
            run: run_after(answer, run),
        },
        answer,
    }
}

impl Client {
    // The journal is handed to the run, as the bank last left it: the run goes by its transaction ID.
    #[tactic(auto, unfolding(crate::specs::Journal::journal_call))]
    pub fn journal(self, row: &[Event]) -> JournalOutcome
        ensures { journal_call_of result ≡ journal_call self.run row.now }
    {
        heard(self.run, row.len(), find(row, self.run.transaction))
    }

    // The same with the row by value.
    pub fn journal_held(self, row: [Event; RECORD_COUNT]) -> JournalOutcome
        ensures { journal_call_of result ≡ journal_call self.run row }
    {
        self.journal(&row)
    }
}
