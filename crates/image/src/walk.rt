// The walk through a form's fields: their heads, the parts of their records, and the stores.
ghost use Rattle.std.specs.Prelude.{◌≡◌, ◌≤◌};
ghost use Rattle.image.specs.Walk.{rest, start_at, step_items, step_width};

use crate::table::row_at;

// A place in the walk: the next field and how many are left; of the field at hand the store to come, how many records
// are left and what each has; of the record at hand how many parts are left and their lengths.
#[derive(Clone, Copy)]
pub struct Cursor {
    pub field: usize,
    pub left: u64,
    pub store: usize,
    pub records: u64,
    pub more: u64,
    pub all: u64,
    pub parts: u64,
    pub widths: u64,
}

// What comes next: a head (its length and its number), a part or a store (its length), each with the place behind it.
// Beside `Entry`, since `step_items` in the contract of `next` speaks of a step with its place.
#[derive(Clone, Copy)]
pub enum Step {
    Head(usize, u64, Cursor),
    Part(usize, Cursor),
    Store(usize, Cursor),
    Done,
}

// What the walk gives: a head (its length and its number), a part or a store (its length).
#[derive(Clone, Copy)]
pub enum Entry {
    Head(usize, u64),
    Part(usize),
    Store(usize),
}

impl Iterator for Cursor {
    ghost use Rattle.std.specs.Iterator.{item_count};
    ghost use Rattle.image.specs.Walk.{rest, Walked};

    type Item = Entry;

    ghost next_gives = { Walked };

    ghost remaining = { item_count rest };

    fn next(&mut self) -> Option<Entry> {
        match next(*self) {
            Step::Head(w, h, behind) => {
                *self = behind;
                Some(Entry::Head(w, h))
            }
            Step::Part(w, behind) => {
                *self = behind;
                Some(Entry::Part(w))
            }
            Step::Store(z, behind) => {
                *self = behind;
                Some(Entry::Store(z))
            }
            Step::Done => None,
        }
    }
}

// The store of the field at hand, or the next field's head. Kept apart from the rest of the walk, which is short enough
// to be built into each loop.
fn next_field(c: Cursor) -> Step
    requires { (c.parts ≡ 0) × (c.records ≡ 0) }
    ensures { (step_items result ≡ rest c) × (step_width result ≤ 8) }
{
    if c.store != 0 {
        return Step::Store(c.store, start(c.field, c.left));
    }
    if c.left != 0 {
        let r = row_at(c.field);
        let d = Cursor {
            store: r.store,
            records: r.records,
            more: r.more,
            all: r.widths,
            ..start(c.field % 256 + 1, c.left - 1)
        };
        return Step::Head(r.width, r.head, d);
    }
    Step::Done
}

// What comes next, and the place behind it.
pub fn next(c: Cursor) -> Step
    ensures { (step_items result ≡ rest c) × (step_width result ≤ 8) }
{
    if c.parts != 0 {
        let d = Cursor {
            parts: c.parts - 1,
            widths: c.widths / 16,
            ..c
        };
        return Step::Part((c.widths % 16 % 9) as usize, d);
    }
    if c.records != 0 {
        let d = Cursor {
            records: c.records - 1,
            parts: c.more,
            widths: c.all / 16,
            ..c
        };
        return Step::Part((c.all % 16 % 9) as usize, d);
    }
    next_field(c)
}

// The walk through some fields from one on.
pub fn start(field: usize, left: u64) -> Cursor
    ensures { result ≡ start_at field left }
{
    Cursor {
        field,
        left,
        store: 0,
        records: 0,
        more: 0,
        all: 0,
        parts: 0,
        widths: 0,
    }
}
