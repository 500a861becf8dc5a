// Numbers written into the rows.
ghost use Rattle.std.specs.Prelude.{◌≡◌, ◌+◌, ◌≤◌, length};
ghost use Rattle.octets.specs.Bytes.{overwrite};

// Writes numbers over the rows from a place on.
pub fn put(rows: &mut [u64], at: usize, numbers: &[u64])
    requires { at + length numbers.now ≤ length rows.old }
    ensures { rows.new ≡ overwrite rows.old at numbers.now }
{
    rows[at..at + numbers.len()].copy_from_slice(numbers);
}
