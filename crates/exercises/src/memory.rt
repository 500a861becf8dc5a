// The memory that the exercises lend to the unit, with the messages under way, and the moves that are played on it.
ghost use Rattle.std.specs.Prelude.{◌<◌};

use bank_rows::layout::STATE_SIZE;
use bank_session::layout::SESSION_SIZE;
use bank_state::limits::{REPLY_ROOM, STORE_BYTES};
use client_run::run::ClientRun;
use exercise_texts::lines::say_line;
use exercise_texts::record::{MAIL_BYTES, RECORD_BYTES, keep, message_of, put_move};
use exercise_texts::script::Move;
use unit::call::call;
use unit_rows::events::ROW_SIZE;
use unit_rows::lines::{LINES_SIZE, STORES_BYTES};
use unit_rows::runs::{NONCES_SIZE, RUNS_SIZE, run_at};
use unit_state::answer::Answer;
use unit_state::record::ROOM_BYTES;
use unit_state::state::ROOMS_BYTES;

// A bank's memory: the session's numbers, the orders and the mailboxes.
#[derive(Drop)]
pub(crate) struct Bank {
    pub rows: [u64; SESSION_SIZE],
    pub orders: [u8; STORE_BYTES],
    pub mailboxes: [u8; STORE_BYTES],
}

impl Bank {
    // The memory of a fresh bank.
    pub(crate) fn fresh() -> Self {
        Bank {
            rows: [0; SESSION_SIZE],
            orders: [0; STORE_BYTES],
            mailboxes: [0; STORE_BYTES],
        }
    }

    // The bank's numbers, of the session's.
    pub(crate) fn numbers(&self) -> [u64; STATE_SIZE] {
        let mut numbers = [0u64; STATE_SIZE];
        numbers.copy_from_slice(&self.rows[..STATE_SIZE]);
        numbers
    }
}

// The memory of the client runs, the journal's row, the image room and the messages under way.
#[derive(Drop)]
pub(crate) struct Memory {
    pub runs: [u64; RUNS_SIZE],
    pub nonces: [u8; NONCES_SIZE],
    pub row: [u64; ROW_SIZE],
    pub payloads: [u8; ROOMS_BYTES],
    pub files: [u8; ROOMS_BYTES],
    pub room: [u8; ROOM_BYTES],
    pub mail: [u8; MAIL_BYTES],
}

impl Memory {
    // The memory of a fresh unit.
    pub(crate) fn fresh() -> Self {
        Memory {
            runs: [0; RUNS_SIZE],
            nonces: [0; NONCES_SIZE],
            row: [0; ROW_SIZE],
            payloads: [0; ROOMS_BYTES],
            files: [0; ROOMS_BYTES],
            room: [0; ROOM_BYTES],
            mail: [0; MAIL_BYTES],
        }
    }

    // Client run i, from 0 on.
    pub(crate) fn run(&self, i: usize) -> ClientRun
        requires { i < 16 }
    {
        let r = run_at(&self.runs, &self.nonces, i);
        r.client.run
    }

    // The call of a record, with none of the unit's lines made.
    fn call(&mut self, bank: &mut Bank, record: &[u8], buffer: &mut [u8]) -> Answer {
        let mut lines = [0u64; LINES_SIZE];
        let mut stores = [0u8; STORES_BYTES];
        call(
            &mut self.runs,
            &mut self.nonces,
            &mut self.row,
            record,
            &mut bank.rows,
            &mut bank.orders,
            &mut bank.mailboxes,
            &mut self.payloads,
            &mut self.files,
            buffer,
            &mut self.room,
            &mut lines,
            &mut stores,
        )
    }

    // Plays a move, whose message is among the mail, and prints its line; what the unit answered is given back.
    pub(crate) fn play(&mut self, rt: &impl Print, bank: &mut Bank, m: Move) -> Answer {
        let mut record = [0u8; RECORD_BYTES];
        let mut buffer = [0u8; REPLY_ROOM];
        put_move(&mut record, m, &self.mail);
        let answer = self.call(bank, &record, &mut buffer);
        say_line(rt, m, message_of(&self.mail, m.letter, m.fate), answer);
        keep(&mut self.mail, m.fate, &record, answer, &buffer);
        answer
    }
}
