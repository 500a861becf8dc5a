// Rows of numbers, for any width: moved and wiped.
ghost use Rattle.std.specs.Prelude.{◌≡◌, ◌+◌, ◌-◌, ◌≤◌, length, take, drop, replicate};
ghost use Rattle.octets.specs.Bytes.{overwrite};

// Moves a row of this width towards the front, where it does not stand there already.
pub(crate) fn move_row(rows: &mut [u64], width: usize, from: usize, to: usize)
    requires { (to ≤ from) × (from + width ≤ length rows.old) }
    ensures { rows.new
        ≡ overwrite rows.old to (take width (drop from rows.old)) }
{
    if to != from {
        rows.copy_within(from..from + width, to);
    }
}

// Sets the numbers from a place up to another to 0.
pub(crate) fn wipe(rows: &mut [u64], from: usize, end: usize)
    requires { (from ≤ end) × (end ≤ length rows.old) }
    ensures { rows.new ≡ overwrite rows.old from (replicate (end - from) 0) }
{
    rows[from..end].fill(0);
}
