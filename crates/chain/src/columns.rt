// A column of one width as one of another.
ghost use Rattle.std.specs.Prelude.{◌≡◌, length};

// One step for each entry.
pub fn widen(from: &[u16], to: &mut [u32])
    requires { length from.now ≡ length to.old }
    ensures { to.new ≡ from.now }
{
    // By place: behind an `iter_mut` nothing is known of the entries.
    for i in 0..from.len() {
        to[i] = u32::from(from[i]);
    }
}

// The numbers of a column in 32 bits.
pub fn widened<const N: usize>(column: &[u16; N]) -> [u32; N]
    ensures { result ≡ column.now }
{
    let mut wide = [0u32; N];
    widen(column, &mut wide);
    wide
}
