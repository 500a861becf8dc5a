// The calls: begin, a reply arrived, no reply. Each takes the client with its run and returns it with the next.
ghost use Rattle.std.specs.Prelude.{◌≡◌, ◌⊎◌, List, [], ℕ, ◌+◌, ◌^◌, ◌≤◌, ◌<◌, length};
ghost use Rattle.frame_writer.specs.Writer.{write_answer, write_buffer};
ghost use Rattle.message.specs.Limits.{file_bytes};
ghost use Rattle.client_run.specs.NextRun.{HasPlace, file_with};
ghost use Rattle.client_run.specs.Requests.{outstanding, outstanding_data};
ghost use Rattle.client_run.specs.Run.{lent_of, lengths_of, max_exchange};
ghost use Rattle.client_rules.specs.Decisions.{on_reply, on_no_reply};
ghost use Rattle.client.specs.Calls.{new_client, outcome, call_of, if_written, outcome_of, issued, taken, carry_out};
ghost use Rattle.client.specs.Calls.{begin_call, admitted_reply, reply_call, no_reply_call};

use client_rules::decisions::{on_no_reply, on_reply};
use client_rules::rulings::{begin_ruling, run_ruling};
use client_run::next_run::{begin_length, begun, ended, go_on, holding, learned, repeated};
use client_run::requests::{data_of, no_data, request_of};
use client_run::run::{Answer, ClientRun, Decision, Lengths, NONCE_BYTES, Refusal, RunParameters};
use frame_reader::reader::{data, read_reply};
use frame_table::fields::Fields;
use frame_writer::writer::write;
use message::directions::Direction;
use message::limits::SEGMENT_BYTES;
use number_table::table::WrongLength;
use octets::bytes::copy;

// A client with its run: the calls are its methods.
#[derive(Clone, Copy)]
pub struct Client {
    pub run: ClientRun,
}

// What a call returns: the client with its next run, and the answer.
#[derive(Clone, Copy)]
pub struct Outcome {
    pub client: Client,
    pub answer: Result<Answer, Refusal>,
}

// What is lent to a call to be read: the time, the nonce bytes and the payload.
#[derive(Clone, Copy)]
struct Lent<'a> {
    pub time: u64,
    pub nonce: [u8; NONCE_BYTES],
    pub payload: &'a [u8],
}

// The lengths of what is lent.
fn lengths(payload: &[u8], file: &[u8], request: &[u8]) -> Lengths
    ensures { result ≡ lengths_of (lent_of 0 [] payload.now file.now request.now) }
{
    Lengths {
        payload: payload.len(),
        file: file.len(),
        request: request.len(),
    }
}

// The run and the answer.
fn answered(run: ClientRun, answer: Result<Answer, Refusal>) -> Outcome
    ensures { result ≡ outcome run answer }
{
    Outcome {
        client: Client { run },
        answer,
    }
}

// Writes the data of the outstanding segment to its place in the file, where a download holds it.
fn hold(c: ClientRun, d: &[u8], file: &mut [u8])
    requires { HasPlace c (length d.now) × (c.direction ≡ Direction.Download → length file.old ≡ file_bytes) }
    ensures { file.new ≡ file_with c d.now file.old }
{
    if let Direction::Download = c.direction {
        copy(file, (c.segment - 1) as usize * SEGMENT_BYTES, d);
    }
}

// Writes the request that the run has outstanding.
fn write_request(c: ClientRun, lent: Lent, request: &mut [u8]) -> Result<usize, WrongLength>
    ensures { (result
        ≡ write_answer (outstanding c lent.entry.time lent.entry.nonce)
        (outstanding_data c lent.entry.payload.now) request.old)
        × (request.new
        ≡ write_buffer (outstanding c lent.entry.time lent.entry.nonce)
        (outstanding_data c lent.entry.payload.now) request.old) }
{
    let fields = request_of(c, lent.time, lent.nonce);
    write(fields, data_of(c, lent.payload), request)
}

// The next run where its request is written; the run as it was where it is not.
fn outcome_of(w: Result<usize, WrongLength>, c: ClientRun, next: ClientRun) -> Outcome
    ensures { result ≡ outcome_of w c next }
{
    match w {
        Ok(n) => answered(next, Ok(Answer::Request(n))),
        Err(WrongLength) => answered(c, Err(Refusal::WrongBuffer)),
    }
}

// The file buffer changes only where the request is written.
fn hold_if_written(w: Result<usize, WrongLength>, c: ClientRun, d: &[u8], file: &mut [u8])
    requires { HasPlace c (length d.now) × (c.direction ≡ Direction.Download → length file.old ≡ file_bytes) }
    ensures { file.new
        ≡ if_written w (file_with c d.now file.old) file.old }
{
    if let Ok(_) = w {
        hold(c, d, file);
    }
}

// Issues the next run's request; the file buffer, whatever it is, stays.
fn issue(c: ClientRun, next: ClientRun, lent: Lent, request: &mut [u8]) -> Outcome
    ensures { (file : List ℕ) → call_of result file request.new
        ≡ issued c next file (lent_of lent.entry.time lent.entry.nonce lent.entry.payload.now file request.old) }
{
    let w = write_request(next, lent, request);
    outcome_of(w, c, next)
}

// The segment that the run k has outstanding is answered with the data d: it is held, and the request after it issued.
fn take_segment(
    c: ClientRun,
    k: ClientRun,
    d: &[u8],
    lent: Lent,
    file: &mut [u8],
    request: &mut [u8],
) -> Outcome
    requires { (k.segment + 1 < 2 ^ 64) × (k.exchange ≤ max_exchange) × HasPlace k (length d.now)
        × (k.direction ≡ Direction.Download → length file.old ≡ file_bytes) }
    ensures { call_of result file.new request.new ≡ taken c k d.now
        (lent_of lent.entry.time lent.entry.nonce lent.entry.payload.now file.old request.old) }
{
    let held = holding(d.len(), k);
    let next = go_on(k.segment, k.repeats, held);
    let w = write_request(next, lent, request);
    hold_if_written(w, k, d, file);
    outcome_of(w, c, next)
}

// What the decision, to which a reply or no reply led, makes of the run and the buffers.
fn carry_out(
    decision: Decision,
    c: ClientRun,
    r: Fields,
    d: &[u8],
    lent: Lent,
    file: &mut [u8],
    request: &mut [u8],
) -> Outcome
    requires { ((decision ≡ on_reply c r (length d.now)) ⊎ (decision ≡ on_no_reply c)) × (c.exchange ≤ max_exchange)
        × (c.direction ≡ Direction.Download → length file.old ≡ file_bytes) }
    ensures { call_of result file.new request.new ≡ carry_out decision c r d.now
        (lent_of lent.entry.time lent.entry.nonce lent.entry.payload.now file.old request.old) }
{
    match decision {
        Decision::Ignore => answered(c, Ok(Answer::Ignored)),
        Decision::Opened => take_segment(c, learned(r, c), d, lent, file, request),
        Decision::Advance => take_segment(c, c, d, lent, file, request),
        Decision::Return(s) => issue(c, go_on(s, c.repeats + 1, c), lent, request),
        Decision::Repeat => issue(c, repeated(c), lent, request),
        Decision::Close(w) => answered(ended(w, c), Ok(Answer::Closed(w))),
    }
}

// An admitted call with a reply: only now is the reply read, and what it leads to is carried out.
fn take_reply(
    c: ClientRun,
    frame: &[u8],
    lent: Lent,
    file: &mut [u8],
    request: &mut [u8],
) -> Outcome
    requires { (c.exchange ≤ max_exchange) × (c.direction ≡ Direction.Download → length file.old ≡ file_bytes) }
    ensures { call_of result file.new request.new ≡ admitted_reply c frame.now
        (lent_of lent.entry.time lent.entry.nonce lent.entry.payload.now file.old request.old) }
{
    let r = read_reply(frame);
    let d = data(frame);
    let decision = on_reply(c, r, d.len());
    carry_out(decision, c, r, d, lent, file, request)
}

impl Client {
    // A client whose run is not begun.
    pub fn new() -> Self
        ensures { result ≡ new_client }
    {
        Self {
            run: ClientRun::new(),
        }
    }

    // Begins a run, whose opening carries the first exchange number.
    pub fn begin(
        self,
        params: RunParameters,
        time: u64,
        nonce: [u8; NONCE_BYTES],
        payload: &[u8],
        file: &mut [u8],
        request: &mut [u8],
    ) -> Outcome
        ensures { call_of result file.new request.new ≡ begin_call self.run params
            (lent_of time nonce payload.now file.old request.old) }
    {
        let c = self.run;
        let l = lengths(payload, file, request);
        match begin_ruling(c, params, time, l) {
            Err(x) => answered(c, Err(x)),
            Ok(()) => {
                let next = begun(params, begin_length(params.direction, l));
                let lent = Lent {
                    time,
                    nonce,
                    payload,
                };
                issue(c, next, lent, request)
            }
        }
    }

    // A reply arrived.
    pub fn reply(
        self,
        frame: &[u8],
        time: u64,
        nonce: [u8; NONCE_BYTES],
        payload: &[u8],
        file: &mut [u8],
        request: &mut [u8],
    ) -> Outcome
        ensures { call_of result file.new request.new ≡ reply_call self.run frame.now
            (lent_of time nonce payload.now file.old request.old) }
    {
        let c = self.run;
        match run_ruling(c, time, lengths(payload, file, request)) {
            Err(x) => answered(c, Err(x)),
            Ok(()) => {
                let lent = Lent {
                    time,
                    nonce,
                    payload,
                };
                take_reply(c, frame, lent, file, request)
            }
        }
    }

    // No reply came.
    pub fn no_reply(
        self,
        time: u64,
        nonce: [u8; NONCE_BYTES],
        payload: &[u8],
        file: &mut [u8],
        request: &mut [u8],
    ) -> Outcome
        ensures { call_of result file.new request.new ≡ no_reply_call self.run
            (lent_of time nonce payload.now file.old request.old) }
    {
        let c = self.run;
        match run_ruling(c, time, lengths(payload, file, request)) {
            Err(x) => answered(c, Err(x)),
            Ok(()) => {
                let lent = Lent {
                    time,
                    nonce,
                    payload,
                };
                let decision = on_no_reply(c);
                let r = Fields::none();
                carry_out(decision, c, r, no_data(payload), lent, file, request)
            }
        }
    }
}
