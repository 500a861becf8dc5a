// The exercises A to D on standard output, and B over lines: a script and a seed played on the unit, each move with its
// line.
#![tactic(auto)]

mod memory;
mod results;

use exercise_lines::course::{LINE_MOVES, first_course, is_over, move_of, next_course};
use exercise_texts::record::put_signing;
use exercise_texts::script::{
    FIRST_OF_B, MOVES, MOVES_A, MOVES_B, MOVES_C, MOVES_DAY, SEED, move_at,
};
use line::layout::{ROW_SIZE as LINE_SIZE, STORE_BYTES as LINE_BYTES};
use memory::{Bank, Memory};
use results::{say_book, say_counts, say_days, say_handed, say_results};

// Prints what stands before move i: the headings, with exercise C's each order's closing word, before exercise D's
// those of the runs that were handed the journal, the book, and the day on which each order is executed, and after the
// last move the book again, with the signers, and where every opening ended.
fn say_before(rt: &impl Print, i: u8, memory: &Memory, bank: &Bank) {
    match i {
        0 => {
            let _ = println!(rt;
                "exercise A: an upload of edition 2.4 and a statement, no message lost"
            );
        }
        MOVES_A => {
            let _ = println!(rt; "exercise B: the same while messages are lost, repeated and late");
        }
        MOVES_B => {
            let _ = println!(rt; "exercise C: each order's closing word beside what the bank has");
            say_results(rt, 0, memory, bank);
        }
        MOVES_C => {
            say_handed(rt, memory, bank);
            say_book(rt, bank);
            say_days(rt, memory);
            let _ = println!(rt; "exercise D: a booked order is signed");
        }
        MOVES => {
            say_book(rt, bank);
            say_counts(rt, bank);
        }
        _ => (),
    }
}

// Plays the moves of a day, from one on up to another, with a bank's memory of its own: the second day takes up what
// the first put away. A signing is written before it is sent.
fn day(rt: &impl Print, memory: &mut Memory, first: u8, end: u8) {
    let mut bank = Bank::fresh();
    for i in first..end {
        say_before(rt, i, memory, &bank);
        let m = move_at(i);
        put_signing(&mut memory.mail, m);
        memory.play(rt, &mut bank, m);
    }
    say_before(rt, end, memory, &bank);
}

// The two lines of a client run: there for its requests, and back for the replies to them.
#[derive(Drop)]
struct Lines {
    there: [u64; LINE_SIZE],
    back: [u64; LINE_SIZE],
    there_store: [u8; LINE_BYTES],
    back_store: [u8; LINE_BYTES],
}

// Plays exercise B over lines, to the closing words of its client runs.
fn play_over_lines(rt: &impl Print, memory: &mut Memory, bank: &mut Bank) {
    let mut lines = Lines {
        there: [0; LINE_SIZE],
        back: [0; LINE_SIZE],
        there_store: [0; LINE_BYTES],
        back_store: [0; LINE_BYTES],
    };
    let mut c = first_course(
        &mut lines.there,
        &lines.there_store,
        &mut lines.back,
        &lines.back_store,
    );
    for i in 0..LINE_MOVES {
        if is_over(c) {
            return;
        }
        let answer = memory.play(rt, bank, move_of(c, i));
        c = next_course(
            c,
            answer,
            &mut memory.mail,
            &mut lines.there,
            &mut lines.there_store,
            &mut lines.back,
            &mut lines.back_store,
        );
    }
}

// Exercise B over lines from the seed, on a fresh unit, and each order's closing word beside what the bank has.
fn over_lines(rt: &impl Print) {
    let mut memory = Memory::fresh();
    let mut bank = Bank::fresh();
    let _ = println!(rt;
        "exercise B over lines from seed {SEED}: each message goes over a line of its client"
    );
    play_over_lines(rt, &mut memory, &mut bank);
    say_results(rt, usize::from(FIRST_OF_B) - 1, &memory, &bank);
    say_book(rt, &bank);
    say_counts(rt, &bank);
}

fn main(rt: HostRuntime) {
    let mut memory = Memory::fresh();
    day(&rt, &mut memory, 0, MOVES_DAY);
    day(&rt, &mut memory, MOVES_DAY, MOVES);
    over_lines(&rt);
}
