// Numbers moved from their places into another order, by the groups of the table.
ghost use Rattle.std.specs.Prelude.{◌≡◌, true, ◌+◌, ◌-◌, ◌≤◌, length};
ghost use Rattle.octets.specs.Bytes.{overwrite};
ghost use Rattle.image_numbers.specs.Table.{record_places, group_places, groups_from, are_within};
ghost use Rattle.image_numbers.specs.Numbers.{numbers_at};

use crate::table::{Group, group_at};

// Writes the numbers of record i of a group from a place on.
fn move_record(g: Group, i: usize, from: &[u64], to: &mut [u64], at: usize)
    requires { (are_within (length from.now) (record_places g i) ≡ true)
        × (at + length (record_places g i) ≤ length to.old) }
    ensures { to.new
        ≡ overwrite to.old at (numbers_at (record_places g i) from.now) }
{
    let mut parts = g.parts;
    for k in at..at + g.size {
        to[k] = from[g.at + g.width * i + (parts % 16) as usize];
        parts /= 16;
    }
}

// Writes the numbers of a group's records from a place on.
fn move_group(g: Group, from: &[u64], to: &mut [u64], at: usize)
    requires { (are_within (length from.now) (group_places g) ≡ true)
        × (at + length (group_places g) ≤ length to.old) }
    ensures { to.new
        ≡ overwrite to.old at (numbers_at (group_places g) from.now) }
{
    let mut k = at;
    for i in 0..g.records {
        move_record(g, i, from, to, k);
        k += g.size;
    }
}

// Writes the numbers of the groups from one to before another over the front.
pub fn move_groups(first: usize, end: usize, from: &[u64], to: &mut [u64])
    requires { (are_within (length from.now) (groups_from (end - first) first) ≡ true)
        × (length (groups_from (end - first) first) ≤ length to.old) }
    ensures { to.new
        ≡ overwrite to.old 0 (numbers_at (groups_from (end - first) first) from.now) }
{
    let mut k = 0;
    for i in first..end {
        let g = group_at(i);
        move_group(g, from, to, k);
        k += g.records * g.size;
    }
}
